// Drawing up a Deal and a share from a dealer's coefficients.
ghost use Rattle.std.specs.Prelude.{◌≡◌, ◌+◌, ◌*◌, ◌≤◌, length, None, Ok};
ghost use Rattle.std.proofs.Math.Seq.{paste};
ghost use Rattle.sharing.specs.Codes.{refused_from, scalar_refused};
ghost use Rattle.protocol.specs.Record.{codes_of};
ghost use Rattle.dealing.specs.Dealing.{commitments_of};
ghost use Rattle.dealing.specs.Refusals.{Writes, where_passed, deal_drawn_up, share_drawn_up};

use crate::fault::DealingFault;
use group::codes::{write_code, write_element};
use group::group::Group;
use sharing::commitment::commit;
use sharing::evaluation::{judge_codes, value_of_known};
use sharing::linear::Linear;
use sharing::pair::Pair;
use sharing::scalar::Scalar;

// A dealer's coefficients a_0 .. a_t, b_0 .. b_t, scalar codes one after another.
#[derive(Clone, Copy)]
pub struct Coefficients<'a> {
    pub t: u8,
    pub codes: &'a [u8],
}

impl<'a> Coefficients<'a> {
    // How many there are of each row.
    fn count(&self) -> usize
        ensures { result ≡ self.now.t + 1 }
    {
        usize::from(self.t) + 1
    }

    // Tests the coefficients and a seat: the length of both rows, the seat, then the codes in order.
    fn check<G: Group>(&self, seat: u8) -> Result<(), DealingFault>
        ensures { result ≡ where_passed G.meaning self.now.codes.now (self.now.t + 1) seat (Ok tt) }
    {
        let count = self.count();
        if self.codes.len() != 2 * (count * G::S) {
            return Err(DealingFault::Length);
        }
        if seat < 1 || seat > 32 {
            return Err(DealingFault::NoSeat);
        }
        judge_codes::<G, Scalar<G, G::Scalar>>(self.codes, 0, 2 * count)?;
        Ok(())
    }

    // Writes the codes of C_0 .. C_t from a place on.
    fn write_commitments<G: Group>(&self, out: &mut [u8], at: usize)
        requires given { length self.now.codes.now ≡ 2 * ((self.now.t + 1) * G.meaning.s) }
        requires taken { refused_from (scalar_refused G.meaning self.now.codes.now) G.meaning.s 0 (2 * (self.now.t + 1)) ≡ None }
        requires room { at + (self.now.t + 1) * G.meaning.w ≤ length out.old }
        ensures { out.new ≡ paste out.old at (codes_of G.meaning.w (commitments_of G.meaning self.now.codes.now (self.now.t + 1))) ((self.now.t + 1) * G.meaning.w) }
    {
        let count = self.count();
        let s = G::S;
        let w = G::W;
        // By index: of a slice written through `chunks_exact_mut` only the length is known.
        for k in 0..count {
            let left = <Scalar<G, G::Scalar> as Linear<G>>::known(self.codes, k * s);
            let right = <Scalar<G, G::Scalar> as Linear<G>>::known(self.codes, k * s + count * s);
            write_element::<G>(commit::<G>(Pair { left, right }), out, at + k * w);
        }
    }

    // Writes the Deal of the dealer at a seat, and tells its length.
    pub fn draw_up_deal<G: Group>(&self, seat: u8, out: &mut [u8]) -> Result<usize, DealingFault>
        ensures { Writes (deal_drawn_up G.meaning seat (self.now.t + 1) self.now.codes.now (length out.old)) out.old result out.new }
    {
        self.check::<G>(seat)?;
        let size = 5 + self.count() * G::W;
        if out.len() < size {
            return Err(DealingFault::Output);
        }
        write_code(out, 0, 2, (size - 2) as u32);
        // The number of the kind, as the definition of a Deal's bytes has it.
        write_code(out, 2, 2, 2);
        write_code(out, 4, 1, seat as u32);
        self.write_commitments::<G>(out, 5);
        Ok(size)
    }

    // Writes the codes of s and s' of the share for a seat, and tells their length.
    pub fn draw_up_share<G: Group>(&self, seat: u8, out: &mut [u8]) -> Result<usize, DealingFault>
        ensures { Writes (share_drawn_up G.meaning (self.now.t + 1) self.now.codes.now seat (length out.old)) out.old result out.new }
    {
        self.check::<G>(seat)?;
        let count = self.count();
        let s = G::S;
        if out.len() < 2 * s {
            return Err(DealingFault::Output);
        }
        let left = value_of_known::<G, Scalar<G, G::Scalar>>(self.codes, 0, count, seat);
        let right = value_of_known::<G, Scalar<G, G::Scalar>>(self.codes, count * s, count, seat);
        Pair { left, right }.write(out, 0);
        Ok(2 * s)
    }
}
