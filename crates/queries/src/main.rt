// Compares searchers with stored answers to single queries. A line of standard input has, with spaces between: a name, the searcher, V, the root literal,
// the node of the first free variable, the allowance, the reply (move, nomove or spent), the need, the range after it, the marked nodes, the forced nodes
// (false with a minus), a play that they come from, and the gates. Values are 0 unset, 1 false, 2 true; - is an empty list.
#![tactic(auto)]

use anyhow::{Context, anyhow};
use circuit::{Gate, Literal};
use counter::Counter;
use halver::Halver;
use probe::probe;
use search::{Ask, Reply, Searcher};
use splitter::Splitter;
use std::alloc::{AllocError, Global};
use std::error::Error;
use std::io::{BufRead, BufReader};
use std::num::ParseIntError;
use std::str::{FromStr, Split};
use valuation::Value;
use vectors::compare;

// The next field.
fn text<'a>(fields: &mut Split<'a, char>) -> anyhow::Result<&'a str> {
    fields.next().context("a field is missing")
}

fn parsed<T: FromStr>(text: &str) -> anyhow::Result<T>
where
    T::Err: Error,
{
    Ok(text.parse::<T>()?)
}

// Functions here and below, since neither the traits of conversions nor what is read are of this crate.
fn literal(text: &str) -> anyhow::Result<Literal> {
    Ok(Literal::new(parsed::<u16>(text)?))
}

fn value_of(digit: u8) -> Option<Value> {
    match digit {
        b'0' => Some(Value::Unknown),
        b'1' => Some(Value::False),
        b'2' => Some(Value::True),
        _ => None,
    }
}

// The values of a row of digits.
fn values_of(heap: Global, digits: &str) -> Result<Vec<Value>, AllocError> {
    digits.bytes().filter_map(value_of).collect(heap)
}

// Writes a value at each node of a list of nodes, where it is false with a minus.
fn force(nodes: &str, forced: &mut [Value]) -> anyhow::Result<()> {
    if nodes == "-" {
        return Ok(());
    }
    for field in nodes.split(',') {
        let (node, value) = match field.strip_prefix('-') {
            Some(node) => (node, Value::False),
            None => (field, Value::True),
        };
        let node = node.parse::<usize>()?;
        if let Some(entry) = forced.get_mut(node) {
            *entry = value;
        }
    }
    Ok(())
}

// Why a gate is not read. A small type, since a result with it is moved for each gate.
#[derive(Debug, Drop, thiserror::Error)]
enum Unread {
    #[error("no gate")]
    NoGate,
    #[error(transparent)]
    Number(#[from] ParseIntError),
    #[error(transparent)]
    Memory(#[from] AllocError),
}

fn gate_of(field: &str) -> Result<Gate, Unread> {
    let (left, right) = field.split_once(',').ok_or(Unread::NoGate)?;
    let left = Literal::new(left.parse::<u16>()?);
    let right = Literal::new(right.parse::<u16>()?);
    Ok(Gate::new(left, right))
}

// A stored query, and the answer to it.
#[derive(Drop)]
struct Case {
    variables: usize,
    root: Literal,
    start: usize,
    allowance: u64,
    play: Vec<Value>,
    gates: Vec<Gate>,
    forced: Vec<Value>,
    reply: Reply,
    range: Vec<Value>,
    marked: Vec<Value>,
}

fn reply_of(word: &str, need: u64) -> anyhow::Result<Reply> {
    match word {
        "move" => Ok(Reply::Move(need)),
        "nomove" => Ok(Reply::NoMove(need)),
        "spent" => Ok(Reply::Spent),
        _ => Err(anyhow!("no reply")),
    }
}

fn case_of(heap: Global, mut fields: Split<'_, char>) -> anyhow::Result<Case> {
    let variables = parsed::<usize>(text(&mut fields)?)?;
    let root = literal(text(&mut fields)?)?;
    let start = parsed::<usize>(text(&mut fields)?)?;
    let allowance = parsed::<u64>(text(&mut fields)?)?;
    let word = text(&mut fields)?;
    let need = parsed::<u64>(text(&mut fields)?)?;
    let range = values_of(heap, text(&mut fields)?)?;
    let core = text(&mut fields)?;
    let forcing = text(&mut fields)?;
    let play = values_of(heap, text(&mut fields)?)?;
    let gates = fields.map(gate_of).try_collect::<Vec<Gate>>(heap)?;
    let nodes = variables.saturating_add(1).saturating_add(gates.len());
    let mut forced = vec![in heap; Value::Unknown; nodes]?;
    force(forcing, &mut forced[..])?;
    let mut marked = vec![in heap; Value::Unknown; nodes]?;
    force(core, &mut marked[..])?;
    let reply = reply_of(word, need)?;
    Ok(Case {
        variables,
        root,
        start,
        allowance,
        play,
        gates,
        forced,
        reply,
        range,
        marked,
    })
}

// Whether the marks are on the nodes of a list.
fn same_marks(marks: &[bool], marked: &[Value]) -> bool {
    marks
        .iter()
        .zip(marked)
        .all(|(mark, value)| *mark == (*value == Value::True))
}

// Whether a searcher answers as stored, and leaves the forced list, the range and the marks so.
fn agrees<S: Searcher>(heap: Global, searcher: &mut S, case: &Case) -> anyhow::Result<bool> {
    let nodes = case.forced.len();
    let unforced = vec![in heap; Value::Unknown; nodes]?;
    let mut values = vec![in heap; Value::Unknown; nodes]?;
    let mut forced = case.forced.as_slice().to_vec(heap)?;
    let mut range = vec![in heap; Value::Unknown; case.range.len()]?;
    let mut marks = vec![in heap; false; nodes]?;
    let ask = Ask {
        variables: case.variables,
        gates: case.gates.as_slice(),
        root: case.root,
        start: case.start,
        allowance: case.allowance,
    };
    let answer = probe(
        searcher,
        ask,
        case.play.as_slice(),
        unforced.as_slice(),
        &mut values[..],
        &mut forced[..],
        &mut range[..],
        &mut marks[..],
    );
    let reply = answer.context("the query is not sound")?;
    Ok(
        reply == case.reply
            && forced.as_slice() == case.forced.as_slice()
            && range.as_slice() == case.range.as_slice()
            && same_marks(marks.as_slice(), case.marked.as_slice()),
    )
}

// The searchers that lines name.
#[derive(Drop)]
struct Searchers {
    splitter: Splitter,
    counter: Counter,
    over_splitter: Halver<Splitter>,
    over_counter: Halver<Counter>,
    over_two: Halver<Halver<Counter>>,
}

fn halver<S: Drop>(heap: Global, below: S) -> Result<Halver<S>, AllocError> {
    Ok(Halver::new(heap, below)?)
}

fn make_searchers(heap: Global) -> Result<Searchers, AllocError> {
    Ok(Searchers {
        splitter: Splitter::new(heap)?,
        counter: Counter::new(heap)?,
        over_splitter: halver(heap, Splitter::new(heap)?)?,
        over_counter: halver(heap, Counter::new(heap)?)?,
        over_two: halver(heap, halver(heap, Counter::new(heap)?)?)?,
    })
}

// Whether the searcher that a line names answers as the line says.
fn line_agrees(heap: Global, all: &mut Searchers, line: &str) -> anyhow::Result<bool> {
    let mut fields = line.split(' ');
    let _ = fields.next();
    let name = text(&mut fields)?;
    let case = case_of(heap, fields)?;
    // A match: a searcher is picked by its name here, whether the five types or a `dyn` go further.
    match name {
        "splitter" => agrees(heap, &mut all.splitter, &case),
        "counter" => agrees(heap, &mut all.counter, &case),
        "halver(splitter)" => agrees(heap, &mut all.over_splitter, &case),
        "halver(counter)" => agrees(heap, &mut all.over_counter, &case),
        "halver(halver(counter))" => agrees(heap, &mut all.over_two, &case),
        _ => Err(anyhow!("no such searcher")),
    }
}

fn main(rt: HostRuntime) -> anyhow::Result<()> {
    let heap = rt.alloc();
    let mut all = make_searchers(heap)?;
    let lines = BufReader::new(heap, rt.stdin())?.lines(heap);
    let tally = compare(&rt, lines, |line| line_agrees(heap, &mut all, line))?;
    println!(rt; "{tally}")?;
    Ok(())
}
