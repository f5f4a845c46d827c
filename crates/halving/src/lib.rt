// What a halver answers, and that it keeps what every searcher keeps.
#![tactic(auto)]

ghost use Rattle.halving.specs.Halving.{HalvesKeep};

// Over a searcher that keeps its meaning, the halver keeps its own.
pub fn halves_keep()
    ensures { HalvesKeep }
{}
