// Group 1: residues modulo 2039.
#![tactic(auto)]

ghost use Rattle.std.specs.Prelude.{◌≡◌, true, nat_lt};
ghost use Rattle.residues.specs.Residues.{residues};
ghost use Rattle.residues.specs.ResidueLaws.{residues_lawful, all_residues, residues_are_roots, residues_numbers};

use roots::candidates::Candidates;
use roots::roots::Roots;

const P: u32 = 2039;

const Q: u32 = 1019;

pub type Residues = Roots<Q, NonzeroResidues>;

// The candidates of group 1. All residues can be multiplied, 0 among them.
pub struct NonzeroResidues;

impl Candidates<Q> for NonzeroResidues {
    const NUMBER: u16 = 1;

    const W: usize = 2;

    const S: usize = 2;

    const UNIT: u32 = 1;

    const G: u32 = 4;

    const H: u32 = 9;

    ghost NUMBER = { 1 };

    ghost W = { 2 };

    ghost S = { 2 };

    ghost UNIT = { 1 };

    ghost G = { 4 };

    ghost H = { 9 };

    ghost meaning = { residues };

    ghost lawful = { residues_lawful };

    ghost factor = { λ u. nat_lt u 2039 };

    ghost commutative = { all_residues };

    ghost numbers = { residues_numbers };

    ghost roots = { residues_are_roots };

    fn is_candidate(number: u32) -> bool {
        (1..P).contains(&number)
    }

    fn product(a: u32, b: u32) -> u32 {
        a * b % P
    }
}
