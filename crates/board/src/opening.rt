// Making a ceremony and opening it.
ghost use Rattle.std.specs.Prelude.{◌≡◌, length};
ghost use Rattle.protocol.specs.Board.{empty};
ghost use Rattle.protocol.specs.Refusals.{area_needed, opening_fault};
ghost use Rattle.board.specs.State.{board, state_of};
ghost use Rattle.board.specs.Posting.{fault_of, opening_answer, AfterOpening};

use crate::ceremony::Ceremony;
use crate::posting::append;
use board_index::index::Index;
use frames::frame::read_frame;
use group::codes::read_code;
use group::group::Group;
use protocol::fault::{CeremonyFault, RecordFault};
use protocol::phase::Phase;
use std::marker::PhantomData;

// The bytes that an area must have for all records of n seats with the threshold t.
pub fn area_needed<G: Group>(n: u8, t: u8) -> usize
    ensures { result ≡ area_needed G.meaning n t }
{
    let n = n as usize;
    let elements = 5 + (t as usize + 1) * G::W;
    let share = 6 + 2 * G::S;
    54 + 2 * n * elements + 6 * n * n.saturating_sub(1) + (3 * n * n).saturating_sub(2 * n) * share
}

impl<'a, G: Group> Ceremony<'a, G> {
    // A ceremony over an area, unopened.
    pub fn new(area: &'a mut [u8]) -> Ceremony<'a, G>
        ensures area { ((state_of result).area ≡ area.old) × ((state_of result).used ≡ 0) }
        ensures board { board result ≡ empty }
        ensures lender { result.area.ghost_name ≡ area.entry.ghost_name }
    {
        Ceremony {
            area,
            used: 0,
            n: 0,
            t: 0,
            phase: Phase::Unopened,
            index: Index::empty(),
            group: PhantomData,
        }
    }

    // What is said against an Opening.
    #[tactic(auto, unfolding(protocol::specs::Refusals::first_fault, protocol::specs::Refusals::opening_fault))]
    fn check_opening(&self, bytes: &[u8]) -> Result<(), CeremonyFault>
        ensures { fault_of result ≡ opening_fault G.meaning (board self.now) (length self.now.area.now) bytes.now }
    {
        if read_frame(bytes)? != 1 {
            return Err(CeremonyFault::Record(RecordFault::Kind { place: 2 }));
        }
        if bytes.len() != 24 {
            return Err(CeremonyFault::Record(RecordFault::Length { place: 0 }));
        }
        let Phase::Unopened = self.phase else {
            return Err(CeremonyFault::OutOfPhase { place: 2 });
        };
        if read_code(bytes, 4, 2) != G::NUMBER as u32 {
            return Err(CeremonyFault::Parameter { place: 4 });
        }
        let n = bytes[6];
        if n < 1 || n > 32 {
            return Err(CeremonyFault::Parameter { place: 6 });
        }
        let t = bytes[7];
        if 2 * t as usize >= n as usize {
            return Err(CeremonyFault::Parameter { place: 7 });
        }
        if self.area.len() < area_needed::<G>(n, t) {
            return Err(CeremonyFault::SmallArea);
        }
        Ok(())
    }

    // Opens the ceremony: n, t and the label are those of the record.
    pub fn open(&mut self, bytes: &[u8]) -> Result<(), CeremonyFault>
        ensures answer { result ≡ opening_answer G.meaning (board self.old) (length (state_of self.old).area) bytes.now tt }
        ensures after { AfterOpening G.meaning (state_of self.old) bytes.now result (state_of self.new) }
        ensures lender { self.new.area.ghost_name ≡ self.old.area.ghost_name }
    {
        self.check_opening(bytes)?;
        self.used = append(self.area, self.used, bytes);
        self.n = bytes[6];
        self.t = bytes[7];
        self.phase = Phase::Dealing;
        Ok(())
    }

    // Lets the ceremony go. The area keeps its bytes.
    pub fn release(self)
        ensures { self.exit.0.now ≡ (state_of self.entry).area }
    {
        let Ceremony {
            area: _,
            used: _,
            n: _,
            t: _,
            phase: _,
            index: _,
            group: _,
        } = self;
    }
}
