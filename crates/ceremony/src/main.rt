// One dealing from beginning to end, in both groups, told in printed lines.
#![tactic(auto)]

use binary_polynomials::{BinaryPolynomials, product_is_remainder};
use dealing::deal::Coefficients;
use dealing::fault::DealingFault;
use dealing::trial::{dealt_shares_open, test_share};
use figures::figures_hold;
use group::codes::codes_read_back;
use group::group::Group;
use group::powers::powers_obey_laws;
use protocol::theorems::{
    guarantee_holds, guarantee_is_met, letters_read_back, records_read_back, records_write_back,
    sheets_read_back,
};
use residues::Residues;
use sharing::commitment::Share;
use sharing::interpolation::interpolate;
use sharing::seats::are_different_seats;
use sharing_laws::{
    logarithms_interpolate, logarithms_unique, openings_differ, openings_interpolate,
    values_interpolate,
};
use std::{fmt, io};

// The dealer's seat, how many seats there are, and the dealer's coefficients.
#[derive(Drop)]
struct Dealing<'a> {
    dealer: u8,
    seats: u8,
    coefficients: Coefficients<'a>,
}

// Bytes in hexadecimal, each behind a space.
#[derive(Clone, Copy)]
struct Hex<'a>(&'a [u8]);

impl fmt::Display for Hex<'_> {
    fn fmt<W: fmt::Write>(&self, f: &mut fmt::Formatter<W>) -> fmt::Result {
        for b in self.0 {
            write!(f, " {b:02x}")?;
        }
        Ok(())
    }
}

// Tests one share, read from its bytes, against the commitments, read from theirs.
fn print_test<G: Group>(
    rt: HostRuntime,
    t: u8,
    commitments: &[u8],
    share: &[u8],
    seat: u8,
) -> io::Result<()> {
    match test_share::<G>(t, commitments, share, seat) {
        Ok(sides) => {
            let committed = sides.committed;
            let value = sides.value;
            let verdict = if committed == value {
                "passes"
            } else {
                "fails"
            };
            println!(rt;
                "  seat {seat}: g^s h^s' = {committed}, commitments give {value}: {verdict}"
            )
        }
        Err(fault) => println!(rt; "  the test: {fault}"),
    }
}

// Draws up the share for a seat, prints its bytes, tests it, and tests it once more with one bit changed.
fn deal_to_seat<G: Group>(
    rt: HostRuntime,
    dealing: &Dealing,
    commitments: &[u8],
    seat: u8,
) -> io::Result<()> {
    // Fixed arrays here and below: the outputs are lent, and their sizes are those of the largest record and share.
    let mut share = [0u8; 8];
    let coefficients = dealing.coefficients;
    match coefficients.draw_up_share::<G>(seat, &mut share) {
        Ok(length) => {
            // Never so; the test is for the slices below.
            if length > 8 {
                return Ok(());
            }
            println!(rt; "  share:{}", Hex(&share[0..length]))?;
            print_test::<G>(rt, coefficients.t, commitments, &share[0..length], seat)?;
            share[0] ^= 1;
            println!(rt; "  share with a bit changed:{}", Hex(&share[0..length]))?;
            print_test::<G>(rt, coefficients.t, commitments, &share[0..length], seat)
        }
        Err(fault) => println!(rt; "  the share: {fault}"),
    }
}

// The whole dealing: the Deal, then a share for each seat.
fn deal_in<G: Group>(rt: HostRuntime, dealing: &Dealing) -> io::Result<()> {
    let number = G::NUMBER;
    let g = G::element_number(G::g());
    let h = G::element_number(G::h());
    println!(rt; "group {number}: g = {g}, h = {h}")?;
    let coefficients = dealing.coefficients;
    println!(rt; "coefficients:{}", Hex(coefficients.codes))?;
    let mut record = [0u8; 128];
    match coefficients.draw_up_deal::<G>(dealing.dealer, &mut record) {
        Ok(length) => {
            // Never so; the test is for the slices below.
            if length < 5 || length > 128 {
                return Ok(());
            }
            println!(rt; "Deal:{}", Hex(&record[0..length]))?;
            for seat in 1..=dealing.seats {
                deal_to_seat::<G>(rt, dealing, &record[5..length], seat)?;
            }
            Ok(())
        }
        Err(fault) => println!(rt; "the Deal: {fault}"),
    }
}

// Draws up the shares for some seats, one after another.
fn fill_shares<G: Group>(
    coefficients: Coefficients,
    seats: &[u8],
    shares: &mut [u8],
) -> Result<(), DealingFault> {
    // The place moves by the length that each call tells.
    let mut place = 0;
    for seat in seats {
        if place > shares.len() {
            return Err(DealingFault::Output);
        }
        place += coefficients.draw_up_share::<G>(*seat, &mut shares[place..])?;
    }
    Ok(())
}

// Recovers the dealer's secret a_0, with b_0, from the shares of t + 1 seats, which are read from their bytes.
fn recover<G: Group>(rt: HostRuntime, dealing: &Dealing, seats: &[u8]) -> io::Result<()> {
    let mut shares = [0u8; 128];
    if let Err(fault) = fill_shares::<G>(dealing.coefficients, seats, &mut shares) {
        return println!(rt; "the shares: {fault}");
    }
    if seats.len() > 16 || !are_different_seats(seats) {
        return println!(rt; "these are not up to 16 different seats");
    }
    println!(rt; "from seats:{}", Hex(seats))?;
    match interpolate::<G, Share<G>>(seats, &shares, 0) {
        Ok(opening) => {
            let secret = G::scalar_number(opening.left.value);
            let blinding = G::scalar_number(opening.right.value);
            println!(rt; "recovered: a_0 = {secret}, b_0 = {blinding}")
        }
        Err(fault) => println!(rt; "the shares: {}", DealingFault::from(fault)),
    }
}

// These calls do nothing: their contracts are the theorems.
fn call_theorems() {
    codes_read_back();
    powers_obey_laws();
    product_is_remainder();
    values_interpolate::<Residues, Share<Residues>>();
    values_interpolate::<BinaryPolynomials, Share<BinaryPolynomials>>();
    openings_interpolate();
    logarithms_interpolate();
    logarithms_unique();
    openings_differ();
    dealt_shares_open();
    records_read_back();
    records_write_back();
    letters_read_back();
    sheets_read_back();
    guarantee_holds();
    guarantee_is_met();
    figures_hold();
}

fn main(rt: HostRuntime) -> io::Result<()> {
    call_theorems();
    let first = Dealing {
        dealer: 1,
        seats: 3,
        coefficients: Coefficients {
            t: 1,
            codes: &[2, 0, 1, 0, 1, 0, 0, 0],
        },
    };
    deal_in::<Residues>(rt, &first)?;
    recover::<Residues>(rt, &first, &[1, 3])?;
    let second = Dealing {
        dealer: 2,
        seats: 5,
        coefficients: Coefficients {
            t: 2,
            codes: &[
                0x39, 0x30, 0, 0xfe, 0xff, 1, 7, 0, 0, 0x10, 0x27, 0, 1, 0, 0, 0xfe, 0xff, 1,
            ],
        },
    };
    deal_in::<BinaryPolynomials>(rt, &second)?;
    recover::<BinaryPolynomials>(rt, &second, &[5, 2, 4])?;
    let refused = Dealing {
        dealer: 1,
        seats: 1,
        coefficients: Coefficients {
            t: 0,
            codes: &[0xfb, 3, 0, 0],
        },
    };
    deal_in::<Residues>(rt, &refused)
}
