// The worked figures, as one theorem about the definitions.
#![tactic(auto)]

ghost use Rattle.figures.specs.Figures.{WorkedFigures};

// The definitions give the worked figures: a theorem, which its contract states.
pub fn figures_hold()
    ensures { WorkedFigures }
{}
