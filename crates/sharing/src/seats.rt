// Which seats entries may have: different ones, from 1 to 32.
ghost use Rattle.std.specs.Prelude.{◌≡◌, ◌↔◌, IsTrue};
ghost use Rattle.sharing.specs.Interpolation.{Seats};

pub fn are_different_seats(seats: &[u8]) -> bool
    ensures { IsTrue result ↔ Seats seats.now }
{
    // Whether a seat stood behind: 33 seats show one that did, however long the list is.
    let mut stood = [false; 33];
    for m in seats.iter().rev() {
        if *m < 1 || *m > 32 || stood[*m as usize] {
            return false;
        }
        stood[*m as usize] = true;
    }
    true
}
