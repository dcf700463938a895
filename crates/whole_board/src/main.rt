// A whole board in each group and a file replayed, told in printed lines.
#![tactic(auto)]

mod boards;
mod showing;

use binary_polynomials::BinaryPolynomials;
use protocol::theorems::{calls_given, instances_stand};
use residues::Residues;
use showing::{show_board, show_replay};
use std::io;

fn main(rt: HostRuntime) -> io::Result<()> {
    instances_stand();
    calls_given();
    show_board::<Residues>(&rt, boards::RESIDUES)?;
    show_board::<BinaryPolynomials>(&rt, boards::BINARY_POLYNOMIALS)?;
    show_replay::<Residues>(&rt, boards::ALONE, boards::FILE)
}
