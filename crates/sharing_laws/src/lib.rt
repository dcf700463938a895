// What is proved of interpolation, of logarithms and of commitments.
#![tactic(auto)]

ghost use Rattle.sharing.specs.Interpolation.{Interpolates, OpeningsInterpolate, LogarithmsInterpolate, LogarithmsUnique, OpeningsDiffer};

use group::group::Group;
use sharing::linear::Linear;

// For everything that can be added and scaled: the values of t + 1 coefficients at t + 1 different seats interpolate to the first coefficient.
pub fn values_interpolate<G: Group, L: Linear<G>>()
    ensures { Interpolates G.Group.meaning.q L.Linear.member L.Linear.sum }
{}

// Shares that open the values of the commitments at their seats interpolate to an opening of the first commitment.
pub fn openings_interpolate()
    ensures { OpeningsInterpolate }
{}

// Logarithms of the values of A_0 .. A_t at the seats interpolate to a logarithm of A_0.
pub fn logarithms_interpolate()
    ensures { LogarithmsInterpolate }
{}

// Logarithms to the base g are unique below q.
pub fn logarithms_unique()
    ensures { LogarithmsUnique }
{}

// Two openings of one element give the one logarithm of h.
pub fn openings_differ()
    ensures { OpeningsDiffer }
{}
