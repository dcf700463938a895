// Records for t = 1, and their bytes.
ghost use Rattle.std.specs.Prelude.{◌≤◌, length};

use group::codes::write_code;
use group::group::Group;
use group::powers::power_of;

#[derive(Clone, Copy)]
pub(super) enum Record {
    // Handed to the opening call: n and t, or any bytes.
    Opening(u8, u8),
    Start(&'static [u8]),
    // The rest is posted. A Deal has the exponents of g and of h in C_0 and in C_1.
    Deal(u8, (u32, u32), (u32, u32)),
    Complaint(u8, u8),
    Answer(u8, u8, u32, u32),
    // The exponents of g in A_0 and in A_1.
    Exposure(u8, u32, u32),
    Objection(u8, u8, u32, u32),
    Reveal(u8, u8, u32, u32),
    Close(u8),
    // A Deal and an Exposure with codes of these numbers.
    DealCodes(u8, u32, u32),
    ExposureCodes(u8, u32, u32),
    Bytes(&'static [u8]),
}

// The bytes of a record; zeros or others may stand behind them. Not a Vec, since tests change bytes behind the length too.
#[derive(Drop)]
pub(super) struct RecordBytes {
    pub(super) bytes: [u8; 32],
    length: usize,
    ghost inside: { length ≤ 32 },
}

impl RecordBytes {
    pub(super) fn new(bytes: [u8; 32], length: usize) -> RecordBytes
        requires { length ≤ 32 }
    {
        RecordBytes { bytes, length }
    }

    // These bytes, or none where they are more than 32.
    pub(super) fn copied(record: &[u8]) -> RecordBytes {
        let mut bytes = [0; 32];
        let length = record.len();
        if length > 32 {
            return RecordBytes { bytes, length: 0 };
        }
        bytes[..length].copy_from_slice(record);
        RecordBytes { bytes, length }
    }

    // A record of a kind with one or two seats and then two codes.
    fn coded(kind: u8, seats: &[u8], width: usize, codes: (u32, u32)) -> RecordBytes
        requires seats { length seats.now ≤ 2 }
        requires width { width ≤ 4 }
    {
        let place = 4 + seats.len();
        let length = place + 2 * width;
        let mut bytes = [0; 32];
        bytes[..4].copy_from_slice(&[(length - 2) as u8, 0, kind, 0]);
        bytes[4..place].copy_from_slice(seats);
        write_code(&mut bytes, place, width, codes.0);
        write_code(&mut bytes, place + width, width, codes.1);
        RecordBytes { bytes, length }
    }

    pub(super) fn as_slice(&self) -> &[u8] {
        &self.bytes[..self.length]
    }
}

// An Opening with a label of zeros.
fn opening<G: Group>(n: u8, t: u8) -> RecordBytes {
    let [low, high] = G::NUMBER.to_le_bytes();
    let mut bytes = [0; 24];
    bytes[..8].copy_from_slice(&[22, 0, 1, 0, low, high, n, t]);
    RecordBytes::copied(&bytes)
}

// A Deal or an Exposure.
fn elements<G: Group>(kind: u8, writer: u8, codes: (u32, u32)) -> RecordBytes {
    RecordBytes::coded(kind, &[writer], G::W, codes)
}

// An Answer, an Objection or a Reveal.
fn share<G: Group>(kind: u8, seats: [u8; 2], share: (u32, u32)) -> RecordBytes {
    RecordBytes::coded(kind, &seats, G::S, share)
}

// The number of g^a·h^b.
fn commitment<G: Group>((a, b): (u32, u32)) -> u32 {
    let left = power_of::<G>(G::g(), G::reduced(a));
    let right = power_of::<G>(G::h(), G::reduced(b));
    G::element_number(G::product(left, right))
}

impl Record {
    // The kinds are plain numbers, so that the bytes do not come from the code under test.
    pub(super) fn bytes<G: Group>(self) -> RecordBytes {
        match self {
            Record::Opening(n, t) => opening::<G>(n, t),
            Record::Deal(i, first, second) => {
                elements::<G>(2, i, (commitment::<G>(first), commitment::<G>(second)))
            }
            Record::Exposure(i, a, b) => {
                elements::<G>(5, i, (commitment::<G>((a, 0)), commitment::<G>((b, 0))))
            }
            Record::DealCodes(i, first, second) => elements::<G>(2, i, (first, second)),
            Record::ExposureCodes(i, first, second) => elements::<G>(5, i, (first, second)),
            Record::Complaint(j, i) => RecordBytes::copied(&[4, 0, 3, 0, j, i]),
            Record::Answer(i, j, s, blinding) => share::<G>(4, [i, j], (s, blinding)),
            Record::Objection(j, i, s, blinding) => share::<G>(6, [j, i], (s, blinding)),
            Record::Reveal(j, i, s, blinding) => share::<G>(7, [j, i], (s, blinding)),
            Record::Close(phase) => RecordBytes::copied(&[3, 0, 8, 0, phase]),
            Record::Start(bytes) | Record::Bytes(bytes) => RecordBytes::copied(bytes),
        }
    }
}
