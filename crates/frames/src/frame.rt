// Reading the bytes of a record: frame, kind, and length for the kind.
ghost use Rattle.std.specs.Prelude.{◌≡◌, ◌+◌, ◌*◌, length};
ghost use Rattle.protocol.specs.Record.{layout_of, length_of};
ghost use Rattle.frames.specs.Reading.{is_posted as postable, ReadsFrame, ReadsKind};

use group::codes::read_code;
use group::group::Group;
use protocol::fault::RecordFault;
use protocol::kind::Kind;

// The number of the kind, where the bytes are one frame. A number, since which kinds may stand there is the caller's to test.
pub fn read_frame(bytes: &[u8]) -> Result<u32, RecordFault>
    ensures { ReadsFrame bytes.now result }
{
    if bytes.len() < 4 {
        return Err(RecordFault::Frame { place: 0 });
    }
    let length = read_code(bytes, 0, 2) as usize;
    if length < 2 || 2 + length != bytes.len() {
        return Err(RecordFault::Frame { place: 0 });
    }
    Ok(read_code(bytes, 2, 2))
}

// What the length field of a record of a kind must say.
pub fn length_for<G: Group>(kind: Kind, t: u8) -> usize
    ensures { result ≡ length_of G.meaning t (layout_of kind) }
{
    match kind {
        Kind::Deal | Kind::Exposure => 3 + (t as usize + 1) * G::W,
        Kind::Complaint => 4,
        Kind::Answer | Kind::Objection | Kind::Reveal => 4 + 2 * G::S,
        Kind::Opening | Kind::Close | Kind::Letter | Kind::Sheet => 3,
    }
}

// Whether records of a kind are posted.
pub fn is_posted(kind: Kind) -> bool
    ensures { result ≡ postable kind }
{
    !matches!(kind, Kind::Opening | Kind::Letter | Kind::Sheet)
}

// The kind of a record that can be posted, where its length is right.
pub fn read_kind<G: Group>(bytes: &[u8], t: u8) -> Result<Kind, RecordFault>
    ensures { ReadsKind G.meaning t bytes.now result }
{
    let kind = match Kind::try_from(read_frame(bytes)?) {
        Ok(kind) if is_posted(kind) => kind,
        _ => return Err(RecordFault::Kind { place: 2 }),
    };
    if bytes.len() != 2 + length_for::<G>(kind, t) {
        return Err(RecordFault::Length { place: 0 });
    }
    Ok(kind)
}
