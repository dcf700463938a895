// Powers against products taken one by one.
use binary_polynomials::BinaryPolynomials;
use group::group::Group;
use group::powers::power_of;
use residues::Residues;
use std::process::Abort;

// The unit, the base, its square and so on without end: one product for each step.
#[derive(Drop)]
pub(super) struct Powers<G: Group> {
    base: G::Element,
    next: G::Element,
}

impl<G: Group> Powers<G> {
    pub(super) fn of(base: G::Element) -> Powers<G> {
        let next = G::unit();
        Powers { base, next }
    }
}

impl<G: Group> Iterator for Powers<G> {
    type Item = G::Element;

    fn next(&mut self) -> Option<G::Element> {
        let power = self.next;
        self.next = G::product(power, self.base);
        Some(power)
    }
}

fn check_small_powers<G: Group>(rt: &impl Abort, base: G::Element) {
    for (n, expected) in (0..64).zip(Powers::<G>::of(base)) {
        let power = power_of::<G>(base, G::reduced(n));
        assert!(rt; power == expected, "{}", n);
    }
}

// The q-th power is the unit: the power of q - 1, times the base.
fn check_last_power<G: Group>(rt: &impl Abort, base: G::Element) {
    let last = power_of::<G>(base, G::negate(G::reduced(1)));
    assert!(rt; G::product(last, base) == G::unit());
}

// Products with g come back to the unit at the q-th, and not before.
fn check_round<G: Group>(rt: &impl Abort, q: u32) {
    for (n, power) in (0..=q).zip(Powers::<G>::of(G::g())) {
        assert_eq!(rt; power == G::unit(), n == 0 || n == q, "{}", n);
    }
}

// Each base by itself: a loop over an array of elements of any group does not prove, as their size is not known.
fn check_powers<G: Group>(rt: &impl Abort) {
    check_small_powers::<G>(rt, G::g());
    check_small_powers::<G>(rt, G::h());
    check_small_powers::<G>(rt, G::unit());
    check_last_power::<G>(rt, G::g());
    check_last_power::<G>(rt, G::h());
}

#[test]
fn powers_of_both_groups(rt: HostRuntime) {
    check_powers::<Residues>(&rt);
    check_powers::<BinaryPolynomials>(&rt);
}

#[test]
fn rounds_of_both_groups(rt: HostRuntime) {
    check_round::<Residues>(&rt, 1019);
    check_round::<BinaryPolynomials>(&rt, 131071);
}
