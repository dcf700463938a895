// Which lists are of different seats from 1 to 32.
ghost use Rattle.std.specs.Prelude.{◌<◌};

use sharing::seats::are_different_seats;
use std::array;
use std::process::Abort;

fn all_seats() -> [u8; 32] {
    array::from_fn(|k| k as u8 + 1)
}

// All seats, and one more.
fn all_seats_and(last: u8) -> [u8; 33] {
    let mut seats = [last; 33];
    seats[..32].copy_from_slice(&all_seats());
    seats
}

// Line by line: in a table each list would be made a slice first, as they differ in length.
#[test]
fn short_lists(rt: HostRuntime) {
    assert!(rt; are_different_seats(&[]));
    assert!(rt; are_different_seats(&[1]));
    assert!(rt; are_different_seats(&[32]));
    assert!(rt; are_different_seats(&[7, 5]));
    assert!(rt; !are_different_seats(&[0]));
    assert!(rt; !are_different_seats(&[33]));
    assert!(rt; !are_different_seats(&[255]));
    assert!(rt; !are_different_seats(&[1, 1]));
    assert!(rt; !are_different_seats(&[5, 7, 5]));
    assert!(rt; !are_different_seats(&[5, 5, 7]));
    assert!(rt; !are_different_seats(&[7, 5, 5]));
    assert!(rt; !are_different_seats(&[1, 0]));
    assert!(rt; !are_different_seats(&[33, 1]));
}

#[test]
fn every_seat(rt: HostRuntime) {
    assert!(rt; are_different_seats(&all_seats()));
}

// The seat is none, or repeats the next one or the one before. By index: these are read too.
fn check_wrong_at(rt: &impl Abort, k: usize)
    requires { k < 32 }
{
    let all = all_seats();
    for wrong in [0, 33, all[(k + 1) % 32], all[(k + 31) % 32]] {
        let mut seats = all;
        seats[k] = wrong;
        assert!(rt; !are_different_seats(&seats), "{}", k);
    }
}

#[test]
fn one_seat_wrong(rt: HostRuntime) {
    for k in 0..32 {
        check_wrong_at(&rt, k);
    }
}

#[test]
fn one_seat_repeated(rt: HostRuntime) {
    for seat in all_seats() {
        assert!(rt; !are_different_seats(&all_seats_and(seat)), "{}", seat);
    }
}
