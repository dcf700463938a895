// A refused code among others is told with its place and its reason, the first one where there are more.
ghost use Rattle.std.specs.Prelude.{◌<◌, ◌≤◌};

use super::sample::{element_codes, scalar_codes};
use binary_polynomials::BinaryPolynomials;
use group::codes::write_code;
use group::fault::GroupFault;
use group::group::Group;
use residues::Residues;
use sharing::element::Element;
use sharing::evaluation::{evaluate, judge_codes};
use sharing::interpolation::interpolate;
use sharing::linear::Linear;
use sharing::scalar::Scalar;
use sharing::seats::are_different_seats;
use std::process::Abort;
use std::test::Fail;

// A number whose code is refused.
#[derive(Clone, Copy)]
enum Wrong {
    NoCandidate(u32),
    NoMember(u32),
}

impl Wrong {
    fn number(self) -> u32 {
        match self {
            Wrong::NoCandidate(number) | Wrong::NoMember(number) => number,
        }
    }

    fn reason(self) -> u8 {
        match self {
            Wrong::NoCandidate(_) => 1,
            Wrong::NoMember(_) => 2,
        }
    }

    fn fault(self, place: usize) -> GroupFault {
        match self {
            Wrong::NoCandidate(_) => GroupFault::NoCandidate { place },
            Wrong::NoMember(_) => GroupFault::NoMember { place },
        }
    }
}

// Judging, evaluating and interpolating 16 codes all tell the same fault.
fn check_refused<G: Group, L: Linear<G>>(
    rt: &impl Abort,
    codes: &[u8; 64],
    fault: GroupFault,
) -> Result<(), Fail>
    requires { L.width ≤ 4 }
{
    let place = fault.place();
    assert_eq!(rt; judge_codes::<G, L>(codes, 0, 16), Err(fault), "{}", place);
    assert_eq!(rt;
        evaluate::<G, L>(codes, 0, 16, 3).err(),
        Some(fault),
        "{}",
        place
    );
    let seats = [1, 2, 3, 4, 5, 6, 7, 8, 9, 10, 11, 12, 13, 14, 15, 32];
    if !are_different_seats(&seats) {
        return Err(Fail::new("these are not different seats"));
    }
    assert_eq!(rt;
        interpolate::<G, L>(&seats, codes, 0).err(),
        Some(fault),
        "{}",
        place
    );
    Ok(())
}

// Refused with its reason once the wrong code stands at the place.
fn check_place<G: Group, L: Linear<G>>(
    rt: &impl Abort,
    good: &[u8; 64],
    place: usize,
    wrong: Wrong,
) -> Result<(), Fail>
    requires { L.width ≤ 4 }
{
    if place > 60 {
        return Err(Fail::new("no room"));
    }
    let mut codes = *good;
    write_code(&mut codes, place, L::code_width(), wrong.number());
    let fault = wrong.fault(place);
    assert_eq!(rt; fault.reason(), wrong.reason());
    assert_eq!(rt; fault.place(), place);
    check_refused::<G, L>(rt, &codes, fault)
}

fn check_places<G: Group, L: Linear<G>>(
    rt: &impl Abort,
    good: &[u8; 64],
    wrong: Wrong,
) -> Result<(), Fail>
    requires from { 0 < L.width }
    requires to { L.width ≤ 4 }
{
    for place in (0..64).step_by(L::code_width()).take(16) {
        check_place::<G, L>(rt, good, place, wrong)?;
    }
    Ok(())
}

// A wrong code among good ones; then another one, where the last code is wrong too.
fn check_codes<G: Group, L: Linear<G>>(
    rt: &impl Abort,
    mut codes: [u8; 64],
    wrong: Wrong,
    last: u32,
    earlier: Wrong,
) -> Result<(), Fail>
    requires from { 0 < L.width }
    requires to { L.width ≤ 4 }
{
    check_places::<G, L>(rt, &codes, wrong)?;
    write_code(&mut codes, 15 * L::code_width(), L::code_width(), last);
    check_places::<G, L>(rt, &codes, earlier)
}

fn check_scalars<G: Group>(rt: &impl Abort, q: u32) -> Result<(), Fail> {
    let codes = scalar_codes::<G, 64>(q);
    let earlier = Wrong::NoCandidate(0xFFFFFF);
    check_codes::<G, Scalar<G, G::Scalar>>(rt, codes, Wrong::NoCandidate(q), q, earlier)
}

// The last code is wrong for another reason than those before it.
fn check_elements<G: Group>(rt: &impl Abort, wrong: Wrong, last: u32) -> Result<(), Fail> {
    let codes = element_codes::<G, 64>(wrong.number());
    check_codes::<G, Element<G, G::Element>>(rt, codes, wrong, last, wrong)
}

#[test]
fn scalars_refused(rt: HostRuntime) -> Result<(), Fail> {
    check_scalars::<Residues>(&rt, 1019)?;
    check_scalars::<BinaryPolynomials>(&rt, 131071)
}

#[test]
fn residues_refused(rt: HostRuntime) -> Result<(), Fail> {
    check_elements::<Residues>(&rt, Wrong::NoCandidate(0), 2038)?;
    check_elements::<Residues>(&rt, Wrong::NoCandidate(2039), 2038)?;
    check_elements::<Residues>(&rt, Wrong::NoMember(2038), 0)
}

// Every polynomial but 0 is a member.
#[test]
fn polynomials_refused(rt: HostRuntime) -> Result<(), Fail> {
    check_elements::<BinaryPolynomials>(&rt, Wrong::NoCandidate(0), 131072)?;
    check_elements::<BinaryPolynomials>(&rt, Wrong::NoCandidate(131072), 0)
}
