// Compares what a program answers with stored lines.
#![tactic(auto)]

ghost use Rattle.std.specs.Prelude.{IfOk, List};
ghost use Rattle.std.specs.Iterator.{IsFinite, Drains};
ghost use Rattle.vectors.specs.Tallies.{Answers, Counts};

use std::{fmt, io};

// How many lines agree, and how many differ, each up to the largest `usize`.
#[derive(Clone, Copy, PartialEq, Eq, Debug)]
pub struct Tally {
    pub agree: usize,
    pub differ: usize,
}

impl fmt::Display for Tally {
    fn fmt<W: fmt::Write>(&self, f: &mut fmt::Formatter<W>) -> fmt::Result {
        write!(f, "{} agree, {} differ", self.agree, self.differ)
    }
}

impl Tally {
    ghost use Rattle.std.specs.Prelude.{◌≡◌, not};
    ghost use Rattle.vectors.specs.Tallies.{more_if};

    // One line more.
    fn add(&mut self, agrees: bool)
        ensures agree { self.new.agree ≡ more_if agrees self.old.agree }
        ensures differ { self.new.differ ≡ more_if (not agrees) self.old.differ }
    {
        if agrees {
            self.agree = self.agree.saturating_add(1);
        } else {
            self.differ = self.differ.saturating_add(1);
        }
    }
}

// Asks of each line in turn whether it agrees, and prints those that differ.
pub fn compare<
    L: Iterator<Item = io::Result<String>> + Drop,
    F: FnMut(&str) -> anyhow::Result<bool>,
>(rt: &impl Print, lines: L, mut agrees: F) -> anyhow::Result<Tally>
    requires can { L.can_next lines }
    requires finite { IsFinite (L.remaining lines) }
    requires callable { F.IsAlwaysCallable agrees }
    ensures { IfOk result (λ tally. (read : List _) × (last : F) × Drains L.next_gives lines read × Counts (Answers F.step) agrees last read tally) }
{
    let mut tally = Tally {
        agree: 0,
        differ: 0,
    };
    for line in lines {
        let line = line?;
        let same = agrees(line.as_str())?;
        tally.add(same);
        if !same {
            println!(rt; "differs: {line}")?;
        }
    }
    Ok(tally)
}

#[cfg(test)]
mod tests {
    use super::*;
    use std::io::BufRead;

    #[test]
    fn lines_are_counted_by_what_is_said_of_them(rt: HostRuntime) {
        let heap = rt.alloc();
        let found = compare(
            &rt,
            (&b"one\ntwo\nthree\n"[..]).lines(heap),
            |line| Ok(line.len() == 3),
        );
        let tally = found.ok();
        assert_eq!(rt;
            tally,
            Some(Tally {
                agree: 2,
                differ: 1
            })
        );
    }
}
