ghost use Rattle.std.specs.Prelude.{◌≡◌};
ghost use Rattle.protocol.specs.Refusals.{replayed as board_replayed, equations_replayed};
ghost use Rattle.board.specs.State.{board, state_of};
ghost use Rattle.replay.specs.Files.{frames_of, broken_at, taken_of, refused_of, area_of, area_replayed, Splits};

use crate::replayed::Replayed;
use board::ceremony::Ceremony;
use group::codes::read_code;
use group::group::Group;

// The frame that bytes begin with, if it is whole, and the bytes behind it.
fn split_frame(bytes: &[u8]) -> Option<(&[u8], &[u8])>
    ensures { Splits bytes.now result }
{
    if bytes.len() < 4 {
        return None;
    }
    let length = read_code(bytes, 0, 2) as usize;
    if length < 2 || bytes.len() < 2 + length {
        return None;
    }
    Some(bytes.split_at(2 + length))
}

// Posts the records of a file, and stops at the first frame that is broken.
pub fn replay<G: Group>(ceremony: &mut Ceremony<'_, G>, file: &[u8]) -> Replayed
    ensures board { board ceremony.new ≡ board_replayed G.meaning (board ceremony.old) (frames_of file.now) }
    ensures area { area_of (state_of ceremony.new) ≡ area_replayed G.meaning (area_of (state_of ceremony.old)) (frames_of file.now) }
    ensures equations { result.equations ≡ equations_replayed G.meaning (board ceremony.old) (frames_of file.now) }
    ensures taken { result.taken ≡ taken_of G.meaning (board ceremony.old) (frames_of file.now) }
    ensures refused { result.refused ≡ refused_of G.meaning (board ceremony.old) (frames_of file.now) }
    ensures broken { result.broken ≡ broken_at file.now }
    ensures lender { ceremony.new.area.ghost_name ≡ ceremony.old.area.ghost_name }
{
    let mut replayed = Replayed::default();
    let mut rest = file;
    while !rest.is_empty() {
        let Some((record, behind)) = split_frame(rest) else {
            replayed.broken = Some(file.len() - rest.len());
            return replayed;
        };
        match ceremony.post(record) {
            Ok(tested) => {
                replayed.taken += 1;
                replayed.equations += tested as usize;
            }
            Err(fault) => {
                replayed.refused += 1;
                replayed.equations += fault.equations() as usize;
            }
        }
        rest = behind;
    }
    replayed
}
