// The splitter's recursion: a step works out the root once.
ghost use Rattle.std.specs.Prelude.{◌≡◌, ℕ, ◌+◌, ◌-◌, ◌≤◌, [], map, length, take, replicate};
ghost use Rattle.search.specs.Answers.{core_of, range_after, reply_of};
ghost use Rattle.search.specs.Asking.{asked};
ghost use Rattle.search.specs.Queries.{Sound};
ghost use Rattle.search.specs.declared.Reply.TheVariants.{NoMove};
ghost use Rattle.splitting.specs.Steps.{Stands, answer_at, settings_at, settled};
ghost use Rattle.splitting.specs.Tree.{join, splits};
ghost use Rattle.valuation.specs.declared.Value.TheVariants.{Unknown};
ghost use Rattle.splitting.proofs.Trees.{splitter_keeps};

use super::Splitter;
use circuit::walking::set_inputs;
use search::{Ask, Reply, Searcher};
use valuation::Value;

// Writes the setting of a move: a variable that is unset is false there.
fn write_setting(settings: &[Value], range: &mut [Value])
    requires { length settings.now ≡ length range.old }
    ensures { range.new ≡ map settled settings.now }
{
    // An index into `settings`, since a proof has no name for a list that is written through a `zip` of `iter_mut`.
    for (place, entry) in range.iter_mut().enumerate() {
        *entry = Value::from(settings[place] == Value::True);
    }
}

// Writes the values of all inputs, as they are with the range unset.
fn unset_range(ask: Ask<'_>, forced: &[Value], values: &mut [Value])
    requires covered { 1 + ask.variables ≤ length forced.now }
    requires room { 1 + ask.variables ≤ length values.old }
    ensures { (free : ℕ) → Stands (asked ask.entry forced.now free) [] values.new }
{
    set_inputs(forced, ask.start, &[], &mut values[..1 + ask.variables]);
}

impl Splitter {
    // Searches the settings of the range that begin as the values of the inputs do, where the last `unset` variables are unset. The cores
    // of refuted branches are added to the marks, and are left there whatever the reply.
    fn branch(
        &mut self,
        ask: Ask<'_>,
        forced: &[Value],
        unset: usize,
        range: &mut [Value],
        marks: &mut [bool],
    ) -> Reply
        requires sound { Sound (asked ask forced.now (length range.old)) }
        requires stands { Stands (asked ask forced.now (length range.old)) (settings_at ask.start (length range.old - unset) self.old.values.items) self.old.values.items }
        requires fits { unset ≤ length range.old }
        requires unset { range.old ≡ replicate (length range.old) Unknown }
        requires markable { length marks.old ≡ length forced.now }
        ensures reply { result ≡ reply_of (answer_at ask.entry forced.now (length range.old) unset self.old.values.items) ask.entry.allowance }
        ensures range { range.new ≡ range_after (answer_at ask.entry forced.now (length range.old) unset self.old.values.items) ask.entry.allowance (length range.old) }
        ensures marks { (n : ℕ) → result ≡ NoMove n → marks.new
            ≡ join marks.old (core_of (answer_at ask.entry forced.now (length range.old) unset self.old.values.items).outcome (length forced.now)) }
        ensures inputs { (n : ℕ) → result ≡ NoMove n → take (1 + ask.entry.variables) self.new.values.items ≡ take (1 + ask.entry.variables) self.old.values.items }
    {
        if ask.allowance == 0 {
            return Reply::Spent;
        }
        let circuit = ask.circuit();
        let root = circuit.evaluate(forced, ask.root, &mut self.values);
        if root == Value::False {
            self.blame
                .mark(circuit, ask.root, forced, &self.values, marks);
            return Reply::NoMove(1);
        }
        if root == Value::True || unset == 0 {
            write_setting(&self.values[ask.start..ask.start + range.len()], range);
            return Reply::Move(1);
        }
        let node = ask.start + (range.len() - unset);
        let mut below = ask;
        below.allowance -= 1;
        self.values[node] = Value::False;
        let low = self.branch(below, forced, unset - 1, range, marks);
        let Reply::NoMove(spent) = low else {
            return low.later(1);
        };
        below.allowance -= spent;
        self.values[node] = Value::True;
        let high = self.branch(below, forced, unset - 1, range, marks);
        self.values[node] = Value::Unknown;
        high.later(1 + spent)
    }
}

impl Searcher for Splitter {
    ghost meaning = { λ _. splits };

    ghost keeps = { λ s. splitter_keeps };

    fn query(
        &mut self,
        ask: Ask<'_>,
        forced: &mut [Value],
        range: &mut [Value],
        marks: &mut [bool],
    ) -> Reply {
        unset_range(ask, forced, &mut self.values);
        let reply = self.branch(ask, forced, range.len(), range, marks);
        if let Reply::NoMove(_) = reply {
            return reply;
        }
        marks.fill(false);
        reply
    }
}
