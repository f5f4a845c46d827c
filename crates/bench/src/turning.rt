// A turn: the searcher is asked at the level, and its answer moves the bench one level up or gives a slip.
ghost use Rattle.std.specs.Prelude.{◌≡◌, ◌+◌, ◌^◌, ◌<◌, ◌≤◌, length};
ghost use Rattle.question.specs.Rules.{blocks_of};
ghost use Rattle.asking.specs.Asked.{asked_of, reply_for};
ghost use Rattle.runs.specs.State.{in_shape, own, shown as shown_nodes};
ghost use Rattle.runs.specs.Calls.{RightReply};
ghost use Rattle.bench.specs.Model.{gate_sheet, sheets_of, model};
ghost use Rattle.bench.specs.Turning.{level_of, move_or_zero, no_move_or_zero, Ready, asked_over, reply_over, sheets_after, turn_answer, after_turn};

use super::desks::{is_present, paid, stub};
use super::tables::are_bound;
use super::{Bench, GateTable, Lists, Slip, Ticket, Turned};
use asking::{Level, ask_level, before, width};
use runs::{Desk, Phase, Refusal, Refused};
use search::{Reply, Searcher};

// How many nodes may be marked in a phase.
fn shown(phase: Phase, nodes: usize) -> usize
    ensures { result ≡ shown_nodes phase nodes }
{
    match phase {
        Phase::Lost => nodes,
        Phase::Playing | Phase::Over => 0,
    }
}

impl<S> Bench<S> {
    // Whether the bench is at a level, and the tables have the counts in use with which it left them.
    fn fits_shape(&self, gates: &GateTable, lists: &Lists) -> bool
        ensures { result ≡ in_shape (blocks_of self.now.frame.prefix) self.now.desk (gate_sheet gates.now) (sheets_of lists.now) }
    {
        let desk = &self.desk;
        let first = 1 + self.frame.variables();
        desk.depth <= self.frame.blocks().len()
            && gates.first == first
            && gates.table.used == desk.gates
            && lists.play.used == before(self.frame.blocks(), desk.depth)
            && lists.marks.used == shown(desk.phase, first + desk.gates)
    }

    // Whether the tables are the bench's own, in the shape in which it left them.
    pub(super) fn owns(&self, gates: &GateTable, lists: &Lists) -> bool
        ensures { result ≡ own (model self.now gates.now lists.now) }
    {
        are_bound(gates, lists, self.desk.stamp)
            && self.fits_shape(gates, lists)
            && lists.are_roomy(self.frame.variables(), gates.table.entries.len())
    }

    // What it asks at its level.
    fn level(&self) -> Level
        requires { self.now.desk.depth ≤ length (blocks_of self.now.frame.prefix) }
        ensures { result ≡ level_of self.now.frame self.now.desk }
    {
        let desk = &self.desk;
        let blocks = self.frame.blocks();
        Level {
            variables: self.frame.variables(),
            root: desk.roots[desk.depth + 1],
            below: before(blocks, desk.depth),
            free: width(blocks, desk.depth),
            allowance: desk.purse,
        }
    }
}

// How many variables may be set, and how many nodes marked, after a reply.
fn in_use(reply: Reply, level: Level, nodes: usize) -> (usize, usize)
    requires { level.below + level.free < 2 ^ 64 }
    ensures set { result.0 ≡ level.below + move_or_zero reply level.free }
    ensures marked { result.1 ≡ no_move_or_zero reply nodes }
{
    match reply {
        Reply::Move(_) => (level.below + level.free, 0),
        Reply::NoMove(_) => (level.below, nodes),
        Reply::Spent => (level.below, 0),
    }
}

// Asks over the tables, each of which lends its memory once.
fn ask_tables<S: Searcher>(
    searcher: &mut S,
    level: Level,
    gates: &GateTable,
    lists: &mut Lists,
) -> Reply
    requires { Ready level gates.now lists.old }
    ensures same { S.Searcher.meaning searcher.new ≡ S.Searcher.meaning searcher.old }
    ensures right { RightReply (asked_over level gates.now lists.old) level.allowance (reply_over (S.Searcher.meaning searcher.old) level gates.now lists.old) }
    ensures reply { result ≡ reply_for (reply_over (S.Searcher.meaning searcher.old) level gates.now lists.old) }
    ensures lists { sheets_of lists.new ≡ sheets_after level.below (reply_over (S.Searcher.meaning searcher.old) level gates.now lists.old) (sheets_of lists.old) }
{
    let Lists {
        play,
        values,
        forced,
        marks,
        ..
    } = lists;
    let reply = ask_level(
        searcher,
        level,
        gates.gates(),
        &mut play.entries[..],
        &mut values.entries[..],
        &mut forced.entries[..],
        &mut marks.entries[..],
    );
    let (set, marked) = in_use(reply, level, gates.first + gates.table.used);
    play.used = set;
    marks.used = marked;
    reply
}

impl<S: Searcher> Bench<S> {
    // Plays a turn. Without the present ticket and the bench's own tables it is refused as foreign, and as spent where the purse does not
    // cover the need; then all is as it was, and the ticket is given back.
    pub fn turn(
        &mut self,
        ticket: Ticket,
        gates: &GateTable,
        lists: &mut Lists,
    ) -> Result<Turned, Refused<Ticket>>
        ensures meaning { S.Searcher.meaning self.new.searcher ≡ S.Searcher.meaning self.old.searcher }
        ensures answer { result ≡ turn_answer (S.Searcher.meaning self.old.searcher) ticket (model self.old gates.now lists.old) }
        ensures after { model self.new gates.now lists.new ≡ after_turn (S.Searcher.meaning self.old.searcher) ticket (model self.old gates.now lists.old) }
    {
        if !is_present(&self.desk, ticket.stub, Phase::Playing) || !self.owns(gates, lists) {
            return Err(Refused {
                refusal: Refusal::Foreign,
                paper: ticket,
            });
        }
        let desk = self.desk;
        let level = self.level();
        match ask_tables(&mut self.searcher, level, gates, lists) {
            Reply::Spent => Err(Refused {
                refusal: Refusal::Spent,
                paper: ticket,
            }),
            Reply::Move(need) => {
                let desk = paid(desk, Phase::Playing, desk.depth + 1, need);
                self.desk = desk;
                Ok(Turned::Moved(Ticket { stub: stub(&desk) }))
            }
            Reply::NoMove(need) => {
                let desk = paid(desk, Phase::Lost, desk.depth, need);
                self.desk = desk;
                Ok(Turned::Lost(Slip { stub: stub(&desk) }))
            }
        }
    }
}
