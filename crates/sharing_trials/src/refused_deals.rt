// What drawing up a Deal and a share refuses, and that a refusal leaves the output as it was.
ghost use Rattle.std.specs.Prelude.{◌<◌, ◌≤◌};

use super::dealings::check_rest;
use super::sample::scalar_codes;
use binary_polynomials::BinaryPolynomials;
use dealing::deal::Coefficients;
use dealing::fault::DealingFault;
use group::codes::write_code;
use group::fault::GroupFault;
use group::group::Group;
use residues::Residues;
use std::process::Abort;
use std::test::Fail;

// Coefficients for a threshold, as codes with more bytes behind them.
#[derive(Clone, Copy)]
struct Sample {
    t: u8,
    bytes: [u8; 144],
    size: usize,
    ghost some: { 0 < size },
    ghost room: { size < 144 },
}

impl Sample {
    fn new<G: Group>(t: u8, seed: u32) -> Result<Sample, Fail> {
        let bytes = scalar_codes::<G, 144>(seed);
        let size = 2 * ((t as usize + 1) * G::S);
        if size < 1 || size > 143 {
            return Err(Fail::new("no room"));
        }
        Ok(Sample { t, bytes, size })
    }

    fn codes(&self) -> Coefficients<'_> {
        Coefficients {
            t: self.t,
            codes: &self.bytes[..self.size],
        }
    }

    fn short(&self) -> Coefficients<'_> {
        Coefficients {
            t: self.t,
            codes: &self.bytes[..self.size - 1],
        }
    }

    fn long(&self) -> Coefficients<'_> {
        Coefficients {
            t: self.t,
            codes: &self.bytes[..self.size + 1],
        }
    }

    // The same ones but for the code at a place.
    fn with_code<G: Group>(mut self, place: usize, number: u32) -> Result<Sample, Fail> {
        if place > 140 {
            return Err(Fail::new("no room"));
        }
        write_code(&mut self.bytes, place, G::S, number);
        Ok(self)
    }
}

// The fault has this number, place and reason.
fn check_told(rt: &impl Abort, fault: DealingFault, number: u8, place: usize, reason: u8) {
    assert_eq!(rt; fault.number(), number);
    assert_eq!(rt; fault.place(), place);
    assert_eq!(rt; fault.reason(), reason);
}

// Neither the Deal of the dealer at seat 1 nor the share for seat 3 is drawn up.
fn check_refused<G: Group>(
    rt: &impl Abort,
    what: &str,
    given: Coefficients,
    room: usize,
    fault: DealingFault,
)
    requires { room ≤ 80 }
{
    let t = given.t;
    let mut out = [0xAA; 80];
    let deal = given.draw_up_deal::<G>(1, &mut out[..room]);
    assert_eq!(rt; deal, Err(fault), "Deal, {}, t = {}", what, t);
    let share = given.draw_up_share::<G>(3, &mut out[..room]);
    assert_eq!(rt; share, Err(fault), "share, {}, t = {}", what, t);
    check_rest(rt, &out, 0);
}

// A wrong code is told before too small an output is.
fn check_code<G: Group>(rt: &impl Abort, q: u32, good: &Sample, place: usize) -> Result<(), Fail> {
    let wrong = good.with_code::<G>(place, q)?;
    let fault = DealingFault::Code(GroupFault::NoCandidate { place });
    check_told(rt, fault, 9, place, 1);
    check_refused::<G>(rt, "a wrong code", wrong.codes(), 80, fault);
    check_refused::<G>(rt, "a wrong code and no room", wrong.codes(), 0, fault);
    Ok(())
}

// A wrong code at each place in turn.
fn check_codes<G: Group>(rt: &impl Abort, q: u32, good: &Sample) -> Result<(), Fail> {
    for place in (0..good.size).step_by(G::S) {
        check_code::<G>(rt, q, good, place)?;
    }
    Ok(())
}

// One byte too few or too many is told before a wrong code and too small an output are.
fn check_lengths<G: Group>(rt: &impl Abort, q: u32, good: &Sample) -> Result<(), Fail> {
    let wrong = good.with_code::<G>(0, q)?;
    let fault = DealingFault::Length;
    check_told(rt, fault, 3, 0, 0);
    check_refused::<G>(rt, "short", good.short(), 80, fault);
    check_refused::<G>(rt, "long", good.long(), 80, fault);
    check_refused::<G>(rt, "short and wrong", wrong.short(), 0, fault);
    Ok(())
}

// One byte of room too few is refused, and exactly as many as are written are enough.
fn check_room<F>(rt: &impl Abort, size: usize, draw_up: F) -> Result<(), Fail>
where
    F: Fn(&mut [u8]) -> Result<usize, DealingFault>,
    requires { F.IsAlwaysCallable draw_up }
{
    if size < 1 || size > 80 {
        return Err(Fail::new("no room"));
    }
    let fault = DealingFault::Output;
    check_told(rt, fault, 14, 0, 0);
    let mut out = [0xAA; 80];
    assert_eq!(rt; draw_up(&mut out[..size - 1]), Err(fault));
    check_rest(rt, &out, 0);
    assert_eq!(rt; draw_up(&mut out[..size]), Ok(size));
    check_rest(rt, &out, size);
    Ok(())
}

fn check_refusals<G: Group>(rt: &impl Abort, q: u32, t: u8) -> Result<(), Fail> {
    let good = Sample::new::<G>(t, q)?;
    check_codes::<G>(rt, q, &good)?;
    check_lengths::<G>(rt, q, &good)?;
    let deal = 5 + (t as usize + 1) * G::W;
    check_room(rt, deal, |out| good.codes().draw_up_deal::<G>(1, out))?;
    let share = 2 * G::S;
    check_room(rt, share, |out| good.codes().draw_up_share::<G>(3, out))
}

fn check_thresholds<G: Group>(rt: &impl Abort, q: u32) -> Result<(), Fail> {
    for t in 0..16 {
        check_refusals::<G>(rt, q, t)?;
    }
    Ok(())
}

#[test]
fn residue_refusals(rt: HostRuntime) -> Result<(), Fail> {
    check_thresholds::<Residues>(&rt, 1019)
}

#[test]
fn polynomial_refusals(rt: HostRuntime) -> Result<(), Fail> {
    check_thresholds::<BinaryPolynomials>(&rt, 131071)
}
