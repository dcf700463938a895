// Two whole histories, computed from their bytes.
#![tactic(auto)]

ghost use Rattle.examples.specs.Examples.{FirstHistory, FirstTrusted, SecondHistory};

// Three of five seats keep the rules, one is out and one is contested; the sheets of the three give the logarithm of the key.
pub fn first_history_stands()
    ensures { FirstHistory }
{}

// The guarantee speaks of the first history: the seats 1, 2 and 3 are faithful in it, and they are enough.
pub fn first_history_is_trusted()
    ensures { FirstTrusted }
{}

// Nobody keeps the rules; the sheets and the Reveals open one commitment in two ways, which gives the logarithm of h.
pub fn second_history_stands()
    ensures { SecondHistory }
{}
