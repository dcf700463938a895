// Codes in bytes: numbers of up to four bytes, lowest byte first, and the elements and scalars that they stand for.
ghost use Rattle.std.specs.Prelude.{◌≡◌, ◌+◌, ◌≤◌, length};
ghost use Rattle.group.specs.Code.{code_at, with_code, CodesReadBack};
ghost use Rattle.group.specs.Reading.{Reads, element_refusal, scalar_refusal};

use crate::fault::GroupFault;
use crate::group::Group;

// Bytes and a place, not the bytes from there on: a refusal tells the place.
pub fn read_code(bytes: &[u8], at: usize, width: usize) -> u32
    requires narrow { width ≤ 4 }
    requires within { at + width ≤ length bytes.now }
    ensures { result ≡ code_at bytes.now width at }
{
    let mut n: u32 = 0;
    for byte in bytes[at..at + width].iter().rev() {
        n = n * 256 + *byte as u32;
    }
    n
}

pub fn write_code(out: &mut [u8], at: usize, width: usize, n: u32)
    requires { at + width ≤ length out.old }
    ensures { out.new ≡ with_code out.old width at n }
{
    let mut left = n;
    for byte in &mut out[at..at + width] {
        *byte = (left % 256) as u8;
        left /= 256;
    }
}

// Elements and scalars are read by two functions of the group; one function here would take them as arguments.
pub fn read_element<G: Group>(bytes: &[u8], at: usize) -> Result<G::Element, GroupFault>
    requires { at + G.meaning.w ≤ length bytes.now }
    ensures { Reads (element_refusal G.meaning (code_at bytes.now G.meaning.w at) at) G.number_of (code_at bytes.now G.meaning.w at) result }
{
    G::element(read_code(bytes, at, G::W), at)
}

pub fn write_element<G: Group>(x: G::Element, out: &mut [u8], at: usize)
    requires { at + G.meaning.w ≤ length out.old }
    ensures { out.new ≡ with_code out.old G.meaning.w at (G.number_of x) }
{
    write_code(out, at, G::W, G::element_number(x));
}

pub fn read_scalar<G: Group>(bytes: &[u8], at: usize) -> Result<G::Scalar, GroupFault>
    requires { at + G.meaning.s ≤ length bytes.now }
    ensures { Reads (scalar_refusal G.meaning (code_at bytes.now G.meaning.s at) at) G.scalar_of (code_at bytes.now G.meaning.s at) result }
{
    G::scalar(read_code(bytes, at, G::S), at)
}

pub fn write_scalar<G: Group>(x: G::Scalar, out: &mut [u8], at: usize)
    requires { at + G.meaning.s ≤ length out.old }
    ensures { out.new ≡ with_code out.old G.meaning.s at (G.scalar_of x) }
{
    write_code(out, at, G::S, G::scalar_number(x));
}

// Reading a code that was written gives its number back: a theorem, which its contract states.
pub fn codes_read_back()
    ensures { CodesReadBack }
{}
