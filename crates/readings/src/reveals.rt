// The Reveals that serve for a contested dealer, and the share that they interpolate to.
ghost use Rattle.std.specs.Prelude.{◌≡◌, ◌+◌, ◌*◌, ◌≤◌, map, length};
ghost use Rattle.protocol.specs.Board.{revealed_share};
ghost use Rattle.protocol.specs.Custodian.{pair_codes};
ghost use Rattle.board.specs.State.{board};
ghost use Rattle.readings.specs.Outputs.{written_in};
ghost use Rattle.readings.specs.Serving.{serving_seats, share_of};

use crate::serving::ServingSeats;
use board::ceremony::Ceremony;
use group::group::Group;
use protocol::kind::Kind;
use sharing::commitment::Share;
use sharing::interpolation::interpolate_known;
use sharing::linear::Linear;

// The lowest seats that have revealed for a dealer.
fn find_serving<G: Group>(ceremony: &Ceremony<'_, G>, dealer: u8) -> ServingSeats
    ensures { result ≡ serving_seats (board ceremony.now) dealer }
{
    let t = ceremony.t() as usize;
    let mut serving = ServingSeats::new();
    // A test inside: the checker cannot state its part for a `for` over filter and take here.
    for j in 1..ceremony.n() + 1 {
        if serving.len() <= t && ceremony.has(Kind::Reveal, j, dealer) {
            serving.push(j);
        }
    }
    serving
}

// The share that a seat has revealed for a dealer, two zeros where it has revealed none.
fn share_of<G: Group>(ceremony: &Ceremony<'_, G>, dealer: u8, seat: u8) -> Share<G>
    ensures { (G.scalar_of result.left.value, G.scalar_of result.right.value) ≡ share_of (board ceremony.now) dealer seat }
{
    ceremony
        .share_in(Kind::Reveal, seat, dealer)
        .unwrap_or(<Share<G> as Linear<G>>::zero())
}

// Writes the shares of these seats one after another.
fn write_shares<G: Group>(ceremony: &Ceremony<'_, G>, dealer: u8, seats: &[u8], out: &mut [u8])
    requires room { length seats.now * (G.meaning.s + G.meaning.s) ≤ length out.old }
    ensures { out.new ≡ written_in out.old (pair_codes G.meaning.s (map (share_of (board ceremony.now) dealer) seats.now)) }
{
    let width = <Share<G> as Linear<G>>::code_width();
    for (k, seat) in seats.iter().enumerate() {
        share_of(ceremony, dealer, *seat).write(out, k * width);
    }
}

// The share (z, z') that the serving Reveals for a dealer interpolate to.
pub fn revealed_share<G: Group>(ceremony: &Ceremony<'_, G>, dealer: u8) -> Share<G>
    ensures { (G.scalar_of result.left.value, G.scalar_of result.right.value) ≡ revealed_share G.meaning (board ceremony.now) dealer }
{
    // A share has two codes of four bytes at most. A fixed array, as there is no heap.
    let mut shares = [0; 128];
    let serving = find_serving(ceremony, dealer);
    let seats = serving.as_slice();
    write_shares(ceremony, dealer, seats, &mut shares);
    interpolate_known::<G, Share<G>>(seats, &shares, 0)
}
