// Which codes are taken, and why the others are refused.
ghost use Rattle.std.specs.Iterator.{IsFinite};

use super::codes::{PLACE, coded, element_read, scalar_read};
use binary_polynomials::BinaryPolynomials;
use group::fault::GroupFault;
use group::group::Group;
use residues::Residues;
use std::process::Abort;

const NO_CANDIDATE: GroupFault = GroupFault::NoCandidate { place: PLACE };

const NO_MEMBER: GroupFault = GroupFault::NoMember { place: PLACE };

// The squares modulo 2039, without 0.
fn squares() -> [bool; 2039] {
    let mut marked = [false; 2039];
    for i in 1..2039usize {
        marked[i * i % 2039] = true;
    }
    marked
}

// The answer is the expected one, and a refusal gives its reason and the place.
fn check_answer(
    rt: &impl Abort,
    n: u32,
    answer: Result<u32, GroupFault>,
    expected: Result<u32, GroupFault>,
) {
    if let Err(fault) = answer {
        // The numbers of the reasons are what is tested.
        let reason = if fault == NO_CANDIDATE { 1 } else { 2 };
        assert_eq!(rt; fault.reason(), reason, "{}", n);
        assert_eq!(rt; fault.place(), PLACE, "{}", n);
    }
    assert_eq!(rt; answer, expected, "{}", n);
}

fn check_elements<G, I, E>(rt: &impl Abort, numbers: I, expected: E)
where
    G: Group,
    I: Iterator<Item = u32> + Drop,
    E: Fn(u32) -> Result<u32, GroupFault>,
    requires can { I.can_next numbers }
    requires ends { IsFinite (I.remaining numbers) }
    requires callable { E.IsAlwaysCallable expected }
{
    for n in numbers {
        let answer = element_read::<G>(&coded(n, G::W));
        check_answer(rt, n, answer, expected(n));
    }
}

// Exactly the numbers below q are those of scalars.
fn check_scalars<G, I>(rt: &impl Abort, numbers: I, q: u32)
where
    G: Group,
    I: Iterator<Item = u32> + Drop,
    requires can { I.can_next numbers }
    requires ends { IsFinite (I.remaining numbers) }
{
    for n in numbers {
        let answer = scalar_read::<G>(&coded(n, G::S));
        let expected = if n < q { Ok(n) } else { Err(NO_CANDIDATE) };
        check_answer(rt, n, answer, expected);
    }
}

fn residue_expected(n: u32, squares: &[bool; 2039]) -> Result<u32, GroupFault> {
    if n == 0 || n >= 2039 {
        return Err(NO_CANDIDATE);
    }
    if squares[n as usize] {
        Ok(n)
    } else {
        Err(NO_MEMBER)
    }
}

// Of all two-byte codes only the squares are taken.
#[test]
fn residue_codes(rt: HostRuntime) {
    let squares = squares();
    check_elements::<Residues, _, _>(&rt, 0..65536, |n| residue_expected(n, &squares));
    let members = (0..65536).filter(|n| residue_expected(*n, &squares) == Ok(*n));
    assert_eq!(rt; members.count(), 1019);
}

#[test]
fn residue_scalar_codes(rt: HostRuntime) {
    check_scalars::<Residues, _>(&rt, 0..65536, 1019);
}

fn polynomial_expected(n: u32) -> Result<u32, GroupFault> {
    if n == 0 || n >= 131072 {
        Err(NO_CANDIDATE)
    } else {
        Ok(n)
    }
}

#[test]
fn polynomial_codes_at_the_edges(rt: HostRuntime) {
    let edges = [0, 1, 2, 3, 131070, 131071, 131072, 131073, 262143, 16777215];
    check_elements::<BinaryPolynomials, _, _>(&rt, edges.into_iter(), polynomial_expected);
}

// Every polynomial but 0 is a member.
#[test]
fn polynomial_codes(rt: HostRuntime) {
    check_elements::<BinaryPolynomials, _, _>(&rt, 1..131072, Ok);
}

#[test]
fn polynomial_scalar_codes(rt: HostRuntime) {
    let edges = [0, 1, 131069, 131070, 131071, 131072, 16777215];
    check_scalars::<BinaryPolynomials, _>(&rt, edges.into_iter(), 131071);
}
