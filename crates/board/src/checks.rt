// What is said against a record of a kind in its phase, behind its frame, kind and length.
ghost use Rattle.std.specs.Prelude.{◌≡◌, ◌+◌, ◌*◌, ◌<◌, ◌≤◌, length, None};
ghost use Rattle.group.specs.Code.{code_at};
ghost use Rattle.sharing.specs.Codes.{decoded_from, refused_from, scalar_refused};
ghost use Rattle.protocol.specs.declared.kind.Kind.TheVariants.{Deal, Complaint, Answer, Exposure, Objection, Reveal};
ghost use Rattle.protocol.specs.declared.phase.Phase.TheVariants.{Dealing, Complaining, Answering, Exposing, Objecting, Revealing};
ghost use Rattle.protocol.specs.Board.{share_in};
ghost use Rattle.protocol.specs.Refusals.{posting_fault};
ghost use Rattle.board.specs.State.{board};
ghost use Rattle.frames.specs.Reading.{OfKind};
ghost use Rattle.board.specs.Posting.{fault_of, SeatAt, TwoSeats, JudgesRecord};

use crate::ceremony::Ceremony;
use group::group::Group;
use protocol::fault::{CeremonyFault, Equation, RecordFault};
use protocol::kind::Kind;
use sharing::commitment::Share;
use sharing::element::Element;
use sharing::evaluation::judge_codes;
use sharing::linear::Linear;
use sharing::scalar::Scalar;

// The codes of a record, from a place on: its elements or its scalars.
fn judge<G: Group, L: Linear<G>>(
    bytes: &[u8],
    place: usize,
    count: usize,
) -> Result<(), RecordFault>
    requires { place + count * L.width ≤ length bytes.now }
    ensures { JudgesRecord (refused_from (L.refusal bytes.now) L.width place count) result }
{
    judge_codes::<G, L>(bytes, place, count)?;
    Ok(())
}

// The share in an Answer, an Objection or a Reveal, whose codes were judged.
pub(crate) fn share_of<G: Group>(bytes: &[u8]) -> Share<G>
    requires within { 6 + 2 * G.meaning.s ≤ length bytes.now }
    requires judged { refused_from (scalar_refused G.meaning bytes.now) G.meaning.s 6 2 ≡ None }
    ensures { (G.scalar_of result.left.value, G.scalar_of result.right.value) ≡ share_in (decoded_from (λ place. code_at bytes.now G.meaning.s place) G.meaning.s 6 2) }
{
    <Share<G> as Linear<G>>::known(bytes, 6)
}

impl<'a, G: Group> Ceremony<'a, G> {
    // The seat at a place of a record.
    fn seat_at(&self, bytes: &[u8], place: usize) -> Result<u8, CeremonyFault>
        requires within { place < length bytes.now }
        ensures { SeatAt (board self.now).n bytes.now place result }
    {
        let seat = bytes[place];
        if seat < 1 || seat > self.n {
            return Err(CeremonyFault::NoSeat { place });
        }
        Ok(seat)
    }

    // The writer and the second seat of a record that may not name its own writer.
    #[tactic(auto, unfolding(protocol::specs::Refusals::first_fault))]
    fn two_seats(&self, bytes: &[u8]) -> Result<(u8, u8), CeremonyFault>
        requires within { 5 < length bytes.now }
        ensures { TwoSeats (board self.now) bytes.now result }
    {
        let writer = self.seat_at(bytes, 4)?;
        let second = self.seat_at(bytes, 5)?;
        if writer == second {
            return Err(CeremonyFault::EqualSeats { place: 5 });
        }
        Ok((writer, second))
    }
}

// One check for each kind, as the table of refusals has one row for each.
impl<'a, G: Group> Ceremony<'a, G> {
    pub(crate) fn check_deal(&self, bytes: &[u8]) -> Result<(), CeremonyFault>
        requires kind { OfKind G.meaning self.now.t bytes.now Deal }
        requires phase { self.now.phase ≡ Dealing }
        ensures { fault_of result ≡ posting_fault G.meaning (board self.now) bytes.now }
    {
        let writer = self.seat_at(bytes, 4)?;
        if self.has(Kind::Deal, writer, 0) {
            return Err(CeremonyFault::Repeated { place: 4 });
        }
        judge::<G, Element<G, G::Element>>(bytes, 5, self.t as usize + 1)?;
        Ok(())
    }

    pub(crate) fn check_complaint(&self, bytes: &[u8]) -> Result<(), CeremonyFault>
        requires kind { OfKind G.meaning self.now.t bytes.now Complaint }
        requires phase { self.now.phase ≡ Complaining }
        ensures { fault_of result ≡ posting_fault G.meaning (board self.now) bytes.now }
    {
        let (writer, dealer) = self.two_seats(bytes)?;
        if !self.has(Kind::Deal, dealer, 0) {
            return Err(CeremonyFault::Missing { place: 5 });
        }
        if self.has(Kind::Complaint, writer, dealer) {
            return Err(CeremonyFault::Repeated { place: 4 });
        }
        Ok(())
    }

    pub(crate) fn check_answer(&self, bytes: &[u8]) -> Result<(), CeremonyFault>
        requires kind { OfKind G.meaning self.now.t bytes.now Answer }
        requires phase { self.now.phase ≡ Answering }
        ensures { fault_of result ≡ posting_fault G.meaning (board self.now) bytes.now }
    {
        let (dealer, complainer) = self.two_seats(bytes)?;
        if !self.has(Kind::Complaint, complainer, dealer) {
            return Err(CeremonyFault::Missing { place: 5 });
        }
        if self.has(Kind::Answer, dealer, complainer) {
            return Err(CeremonyFault::Repeated { place: 4 });
        }
        judge::<G, Scalar<G, G::Scalar>>(bytes, 6, 2)?;
        Ok(())
    }

    pub(crate) fn check_exposure(&self, bytes: &[u8]) -> Result<(), CeremonyFault>
        requires kind { OfKind G.meaning self.now.t bytes.now Exposure }
        requires phase { self.now.phase ≡ Exposing }
        ensures { fault_of result ≡ posting_fault G.meaning (board self.now) bytes.now }
    {
        let writer = self.seat_at(bytes, 4)?;
        if !self.is_qualified(writer) {
            return Err(CeremonyFault::Missing { place: 4 });
        }
        if self.has(Kind::Exposure, writer, 0) {
            return Err(CeremonyFault::Repeated { place: 4 });
        }
        judge::<G, Element<G, G::Element>>(bytes, 5, self.t as usize + 1)?;
        Ok(())
    }

    // Taken is an Objection with a share that passes equation 1 and fails equation 2.
    pub(crate) fn check_objection(&self, bytes: &[u8]) -> Result<(), CeremonyFault>
        requires kind { OfKind G.meaning self.now.t bytes.now Objection }
        requires phase { self.now.phase ≡ Objecting }
        ensures { fault_of result ≡ posting_fault G.meaning (board self.now) bytes.now }
    {
        let (objector, dealer) = self.two_seats(bytes)?;
        if !self.is_qualified(dealer) || !self.has(Kind::Exposure, dealer, 0) {
            return Err(CeremonyFault::Missing { place: 5 });
        }
        if self.has(Kind::Objection, objector, dealer) {
            return Err(CeremonyFault::Repeated { place: 4 });
        }
        judge::<G, Scalar<G, G::Scalar>>(bytes, 6, 2)?;
        if !self.opens(dealer, objector, share_of::<G>(bytes)) {
            let equation = Equation::First;
            return Err(CeremonyFault::Unequal { place: 6, equation });
        }
        if self.is_exposed(dealer, objector, share_of::<G>(bytes)) {
            let equation = Equation::Second;
            return Err(CeremonyFault::Unequal { place: 6, equation });
        }
        Ok(())
    }

    pub(crate) fn check_reveal(&self, bytes: &[u8]) -> Result<(), CeremonyFault>
        requires kind { OfKind G.meaning self.now.t bytes.now Reveal }
        requires phase { self.now.phase ≡ Revealing }
        ensures { fault_of result ≡ posting_fault G.meaning (board self.now) bytes.now }
    {
        let writer = self.seat_at(bytes, 4)?;
        let dealer = self.seat_at(bytes, 5)?;
        if !self.is_contested(dealer) {
            return Err(CeremonyFault::Missing { place: 5 });
        }
        if self.has(Kind::Reveal, writer, dealer) {
            return Err(CeremonyFault::Repeated { place: 4 });
        }
        judge::<G, Scalar<G, G::Scalar>>(bytes, 6, 2)?;
        if !self.opens(dealer, writer, share_of::<G>(bytes)) {
            let equation = Equation::First;
            return Err(CeremonyFault::Unequal { place: 6, equation });
        }
        Ok(())
    }
}
