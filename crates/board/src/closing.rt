// Closes: the end of a phase.
ghost use Rattle.std.specs.Prelude.{◌≡◌, ℕ, ◌≤◌, List, None, Ok};
ghost use Rattle.protocol.specs.declared.kind.Kind.TheVariants.{Close};
ghost use Rattle.protocol.specs.Board.{phase_of, phase_number};
ghost use Rattle.protocol.specs.Refusals.{posting_fault, posted};
ghost use Rattle.board.specs.State.{board, state_of};
ghost use Rattle.frames.specs.Reading.{OfKind};
ghost use Rattle.board.specs.Posting.{fault_of, posting_answer, AfterPosting};

use crate::ceremony::Ceremony;
use crate::posting::append;
use group::group::Group;
use protocol::fault::CeremonyFault;
use protocol::phase::Phase;

impl<'a, G: Group> Ceremony<'a, G> {
    // A Close ends the phase that it names; the last one needs the Reveals.
    pub(crate) fn check_close(&self, bytes: &[u8]) -> Result<(), CeremonyFault>
        requires kind { OfKind G.meaning self.now.t bytes.now Close }
        requires phase { (1 ≤ phase_number self.now.phase) × (phase_number self.now.phase ≤ 6) }
        ensures { fault_of result ≡ posting_fault G.meaning (board self.now) bytes.now }
    {
        if bytes[4] != self.phase.number() {
            return Err(CeremonyFault::OutOfPhase { place: 4 });
        }
        if self.phase == Phase::Revealing && !self.are_all_revealed() {
            return Err(CeremonyFault::FewReveals { place: 4 });
        }
        Ok(())
    }

    // The phase that a Close begins; the ceremony is void where t or fewer dealers are qualified.
    fn next_phase(&self) -> Phase
        ensures { (bytes : List ℕ) → OfKind G.meaning self.now.t bytes Close → posting_fault G.meaning (board self.now) bytes ≡ None → result ≡ phase_of G.meaning (posted G.meaning (board self.now) bytes) }
    {
        match self.phase {
            Phase::Unopened => Phase::Dealing,
            Phase::Dealing => Phase::Complaining,
            Phase::Complaining => Phase::Answering,
            Phase::Answering => {
                if self.qualified_count() <= self.t {
                    Phase::Void
                } else {
                    Phase::Exposing
                }
            }
            Phase::Exposing => Phase::Objecting,
            Phase::Objecting => Phase::Revealing,
            Phase::Revealing => Phase::Finished,
            Phase::Finished => Phase::Finished,
            Phase::Void => Phase::Void,
        }
    }

    // Takes a Close against which nothing is said, and tells how many equations were tested for it: none.
    pub(crate) fn take_close(&mut self, bytes: &[u8]) -> u8
        requires kind { OfKind G.meaning self.old.t bytes.now Close }
        requires taken { posting_fault G.meaning (board self.old) bytes.now ≡ None }
        ensures answer { Ok result ≡ posting_answer G.meaning (board self.old) bytes.now }
        ensures after { AfterPosting G.meaning (state_of self.old) bytes.now (Ok result) (state_of self.new) }
        ensures lender { self.new.area.ghost_name ≡ self.old.area.ghost_name }
    {
        let next = self.next_phase();
        self.used = append(self.area, self.used, bytes);
        self.phase = next;
        0
    }
}
