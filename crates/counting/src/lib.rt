// What a counter answers, and that it keeps what every searcher keeps.
#![tactic(auto)]

ghost use Rattle.counting.specs.Counting.{CountsKeep, OneToOne};

// Cases and settings correspond one to one.
pub fn one_to_one()
    ensures { OneToOne }
{}

// The counter keeps its meaning.
pub fn counts_keep()
    ensures { CountsKeep }
{}
