// Taking records: what a record does is decided by the phase and its kind together.
ghost use Rattle.std.specs.Prelude.{◌≡◌, ◌+◌, ◌≤◌, true, length, Some, None, Ok};
ghost use Rattle.std.proofs.Math.Seq.{paste};
ghost use Rattle.protocol.specs.declared.kind.Kind.TheVariants.{Answer};
ghost use Rattle.protocol.specs.Record.{read_record};
ghost use Rattle.protocol.specs.Board.{share_in, passes1};
ghost use Rattle.protocol.specs.Refusals.{posting_fault, equations_taken};
ghost use Rattle.board_index.specs.State.{is_indexed, filed_at};
ghost use Rattle.board_index.specs.Deeds.{Files};
ghost use Rattle.board.specs.State.{board, state_of};
ghost use Rattle.frames.specs.Reading.{OfKind};
ghost use Rattle.board.specs.Posting.{posting_answer, AfterPosting};

use crate::ceremony::Ceremony;
use crate::checks::share_of;
use frames::frame::read_kind;
use group::group::Group;
use protocol::fault::CeremonyFault;
use protocol::kind::Kind;
use protocol::phase::Phase;

// Writes a record at the end of the used bytes, and tells where it ends.
pub(crate) fn append(area: &mut [u8], used: usize, bytes: &[u8]) -> usize
    requires { used + length bytes.now ≤ length area.old }
    ensures end { result ≡ used + length bytes.now }
    ensures area { area.new ≡ paste area.old used bytes.now (length bytes.now) }
{
    let end = used + bytes.len();
    area[used..end].copy_from_slice(bytes);
    end
}

// How many equations are tested for a taken record.
fn equations_for(kind: Kind) -> u8
    ensures { result ≡ equations_taken (Some kind) }
{
    match kind {
        Kind::Answer | Kind::Reveal => 1,
        Kind::Objection => 2,
        _ => 0,
    }
}

// The second seat that a record names, 0 where its kind has none.
fn second_of<G: Group>(kind: Kind, bytes: &[u8], t: u8) -> u8
    requires { OfKind G.meaning t bytes.now kind }
    ensures { result ≡ (read_record G.meaning t kind bytes.now).second }
{
    match kind {
        Kind::Complaint | Kind::Answer | Kind::Objection | Kind::Reveal => bytes[5],
        _ => 0,
    }
}

impl<'a, G: Group> Ceremony<'a, G> {
    // Takes a record against which nothing is said, and notes it in the index.
    fn file(&mut self, bytes: &[u8], kind: Kind, writer: u8, second: u8, truth: bool)
        requires files { Files G.meaning (state_of self.old) bytes.now kind writer second truth }
        ensures state { state_of self.new ≡ filed_at (state_of self.old) bytes.now kind writer second truth }
        ensures lender { self.new.area.ghost_name ≡ self.old.area.ghost_name }
    {
        let place = self.used;
        self.used = append(self.area, place, bytes);
        self.index.note(kind, writer, second, place, truth);
    }

    // Whether a record that nothing is said against is a true Answer.
    fn is_true_answer(&self, kind: Kind, bytes: &[u8]) -> bool
        requires kind { OfKind G.meaning self.now.t bytes.now kind }
        requires taken { posting_fault G.meaning (board self.now) bytes.now ≡ None }
        ensures { kind ≡ Answer → result ≡ passes1 G.meaning (board self.now) (read_record G.meaning self.now.t Answer bytes.now).writer (read_record G.meaning self.now.t Answer bytes.now).second (share_in (read_record G.meaning self.now.t Answer bytes.now).codes) }
    {
        match kind {
            Kind::Answer => self.opens(bytes[4], bytes[5], share_of::<G>(bytes)),
            _ => false,
        }
    }

    // Takes a record of a kind 2 to 7 against which nothing is said, and tells how many equations were tested for it.
    fn take(&mut self, kind: Kind, bytes: &[u8]) -> u8
        requires kind { (OfKind G.meaning self.old.t bytes.now kind) × (is_indexed kind ≡ true) }
        requires taken { posting_fault G.meaning (board self.old) bytes.now ≡ None }
        ensures answer { Ok result ≡ posting_answer G.meaning (board self.old) bytes.now }
        ensures after { AfterPosting G.meaning (state_of self.old) bytes.now (Ok result) (state_of self.new) }
        ensures lender { self.new.area.ghost_name ≡ self.old.area.ghost_name }
    {
        let second = second_of::<G>(kind, bytes, self.t);
        let truth = self.is_true_answer(kind, bytes);
        self.file(bytes, kind, bytes[4], second, truth);
        equations_for(kind)
    }

    // Posts a record, and tells how many equations were tested for it.
    pub fn post(&mut self, bytes: &[u8]) -> Result<u8, CeremonyFault>
        ensures answer { result ≡ posting_answer G.meaning (board self.old) bytes.now }
        ensures after { AfterPosting G.meaning (state_of self.old) bytes.now result (state_of self.new) }
        ensures lender { self.new.area.ghost_name ≡ self.old.area.ghost_name }
    {
        if let Phase::Unopened = self.phase {
            return Err(CeremonyFault::OutOfPhase { place: 0 });
        }
        let kind = read_kind::<G>(bytes, self.t)?;
        match (self.phase, kind) {
            (Phase::Dealing, Kind::Deal) => {
                self.check_deal(bytes)?;
                Ok(self.take(kind, bytes))
            }
            (Phase::Complaining, Kind::Complaint) => {
                self.check_complaint(bytes)?;
                Ok(self.take(kind, bytes))
            }
            (Phase::Answering, Kind::Answer) => {
                self.check_answer(bytes)?;
                Ok(self.take(kind, bytes))
            }
            (Phase::Exposing, Kind::Exposure) => {
                self.check_exposure(bytes)?;
                Ok(self.take(kind, bytes))
            }
            (Phase::Objecting, Kind::Objection) => {
                self.check_objection(bytes)?;
                Ok(self.take(kind, bytes))
            }
            (Phase::Revealing, Kind::Reveal) => {
                self.check_reveal(bytes)?;
                Ok(self.take(kind, bytes))
            }
            (
                Phase::Dealing
                | Phase::Complaining
                | Phase::Answering
                | Phase::Exposing
                | Phase::Objecting
                | Phase::Revealing,
                Kind::Close,
            ) => {
                self.check_close(bytes)?;
                Ok(self.take_close(bytes))
            }
            (_, _) => Err(CeremonyFault::OutOfPhase { place: 2 }),
        }
    }
}
