// What testing a share refuses: first wrong lengths, then codes of the commitments, then those of the share.
use super::sample::{element_codes, scalar_codes};
use binary_polynomials::BinaryPolynomials;
use dealing::fault::DealingFault;
use dealing::trial::test_share;
use group::codes::write_code;
use group::fault::GroupFault;
use group::group::Group;
use residues::Residues;
use std::process::Abort;

// Four commitments and a share, of which the first bytes are handed over.
fn check_refused<G: Group>(
    rt: &impl Abort,
    what: &str,
    commitments: &[u8],
    share: &[u8],
    fault: DealingFault,
) {
    let tested = test_share::<G>(3, commitments, share, 32);
    assert_eq!(rt; tested, Err(fault), "{}", what);
}

fn check_lengths<G: Group>(rt: &impl Abort, commitments: &[u8; 64], share: &[u8; 12]) {
    let w = 4 * G::W;
    let s = 2 * G::S;
    assert!(rt; test_share::<G>(3, &commitments[..w], &share[..s], 32).is_ok());
    for (what, commitments, share) in [
        ("few commitments", &commitments[..w - 1], &share[..s]),
        ("many commitments", &commitments[..w + 1], &share[..s]),
        ("a short share", &commitments[..w], &share[..s - 1]),
        ("a long share", &commitments[..w], &share[..s + 1]),
    ] {
        check_refused::<G>(rt, what, commitments, share, DealingFault::Length);
    }
}

fn no_candidate(place: usize) -> DealingFault {
    DealingFault::Code(GroupFault::NoCandidate { place })
}

fn check_codes<G: Group>(rt: &impl Abort, mut commitments: [u8; 64], mut share: [u8; 12], q: u32) {
    let w = G::W;
    let s = G::S;
    write_code(&mut share, s, s, q);
    check_refused::<G>(
        rt,
        "s'",
        &commitments[..4 * w],
        &share[..2 * s],
        no_candidate(s),
    );
    write_code(&mut share, 0, s, q);
    check_refused::<G>(
        rt,
        "s",
        &commitments[..4 * w],
        &share[..2 * s],
        no_candidate(0),
    );
    write_code(&mut commitments, 3 * w, w, 0);
    check_refused::<G>(
        rt,
        "C_3",
        &commitments[..4 * w],
        &share[..2 * s],
        no_candidate(3 * w),
    );
    check_refused::<G>(
        rt,
        "length first",
        &commitments[..4 * w],
        &share[..s],
        DealingFault::Length,
    );
}

fn check_trials<G: Group>(rt: &impl Abort, q: u32) {
    let commitments = element_codes::<G, 64>(q);
    let share = scalar_codes::<G, 12>(q);
    check_lengths::<G>(rt, &commitments, &share);
    check_codes::<G>(rt, commitments, share, q);
}

#[test]
fn trials_refused(rt: HostRuntime) {
    check_trials::<Residues>(&rt, 1019);
    check_trials::<BinaryPolynomials>(&rt, 131071);
}
