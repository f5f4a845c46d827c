// The records of a question's bytes, each judged by what stands before it.
ghost use Rattle.std.specs.Prelude.{◌≡◌, ◌+◌, ◌*◌, ◌<◌, ◌≤◌, length, Some, None, MatchResult, slice_index};
ghost use Rattle.question.specs.declared.records.Kind.TheVariants as kinds;
ghost use Rattle.question.specs.Judging.{Front};
ghost use Rattle.question.specs.Rules.{Framed, blocks_of, body, content_rules, first, kind_of, kind_read, limit, misplaced, next, number_of, record_of, repeats, rules, unless, word};

use super::beginning::Beginning;
use super::prefix::{Block, Quantifier};
use circuit::Literal;

// Why a load is refused.
#[derive(Clone, Copy, PartialEq, Eq, Debug)]
pub enum Refusal {
    // under four bytes for a head, an end without an output, or a body cut off
    Incomplete = 1,
    // an unknown kind of record, or a length that is wrong for it
    Malformed = 2,
    // a record out of order, or a byte after the output
    Misplaced = 3,
    // a block's byte, count or total outside its limits, or a block too many
    BlockLimits = 4,
    // a block with its neighbour's quantifier
    SameQuantifier = 5,
    // a gate too many
    TooManyGates = 6,
    // a gate's literal not below twice its node, or an output literal of no node
    BadLiteral = 7,
    // a gate table with fewer entries than gates, or too large
    TableSize = 8,
}

impl Refusal {
    // The number that a program reports. A method and no `From`, so that a call says which number it is.
    pub fn number(self) -> u8
        ensures { result ≡ number_of self }
    {
        self as u8
    }
}

// The kinds of records.
#[derive(Clone, Copy)]
pub enum Kind {
    Block,
    Gate,
    Output,
}

// A record that was read.
#[derive(Clone, Copy)]
pub enum Record {
    Block(Block),
    Gate(Literal, Literal),
    Output(Literal),
}

// The number of two bytes, the low one first; and that both are bytes, so that the number can be written back.
fn word(bytes: &[u8], at: usize) -> u16
    requires { at + 1 < length bytes.now }
    ensures value { result ≡ word bytes.now at }
    ensures low { slice_index bytes.now at < 256 }
    ensures high { slice_index bytes.now (at + 1) < 256 }
{
    u16::from_le_bytes([bytes[at], bytes[at + 1]])
}

// The two literals of a gate's record.
pub(super) fn literals(bytes: &[u8], at: usize) -> (Literal, Literal)
    requires { at + 3 < length bytes.now }
    ensures left { result.0.code ≡ word bytes.now at }
    ensures right { result.1.code ≡ word bytes.now (at + 2) }
    ensures bytes { (slice_index bytes.now at < 256) × (slice_index bytes.now (at + 2) < 256) }
{
    (
        Literal::new(word(bytes, at)),
        Literal::new(word(bytes, at + 2)),
    )
}

impl TryFrom<u16> for Kind {
    type Error = Refusal;

    ghost try_from_gives = { λ number outcome. outcome ≡ kind_read number };

    fn try_from(number: u16) -> Result<Self, Refusal> {
        match number {
            1 => Ok(Kind::Block),
            2 => Ok(Kind::Gate),
            3 => Ok(Kind::Output),
            _ => Err(Refusal::Malformed),
        }
    }
}

impl Kind {
    // The length of its body.
    fn body(self) -> usize
        ensures { result ≡ body self }
    {
        match self {
            Kind::Block => 3,
            Kind::Gate => 4,
            Kind::Output => 2,
        }
    }
}

impl Beginning {
    // Whether a record of this kind is out of order next.
    fn misplaces(&self, kind: Kind) -> bool
        ensures { result ≡ misplaced kind (blocks_of self.now.prefix) self.now.gates }
    {
        match kind {
            Kind::Block => self.gates > 0,
            Kind::Gate | Kind::Output => self.prefix.blocks().is_empty(),
        }
    }

    // The kind of the next record, if its head and its place are good and it is whole.
    fn kind(&self, rest: &[u8]) -> Result<Kind, Refusal>
        ensures { MatchResult result (Framed (blocks_of self.now.prefix) self.now.gates rest.now) (λ e. first (rules (blocks_of self.now.prefix) self.now.gates rest.now) ≡ Some e) }
    {
        if rest.len() < 4 {
            return Err(Refusal::Incomplete);
        }
        let kind = Kind::try_from(word(rest, 2))?;
        if word(rest, 0) as usize != kind.body() {
            return Err(Refusal::Malformed);
        }
        if self.misplaces(kind) {
            return Err(Refusal::Misplaced);
        }
        if rest.len() < 4 + kind.body() {
            return Err(Refusal::Incomplete);
        }
        Ok(kind)
    }

    // Whether the last block has this quantifier.
    fn repeats(&self, quantifier: Quantifier) -> bool
        ensures { result ≡ repeats (blocks_of self.now.prefix) quantifier }
    {
        self.prefix
            .blocks()
            .last()
            .is_some_and(|block| block.quantifier == quantifier)
    }

    // The literals that come next are below this one: twice the number of nodes so far.
    fn limit(&self) -> usize
        ensures { result ≡ limit (blocks_of self.now.prefix) self.now.gates }
    {
        2 * (1 + self.prefix.variables() + self.gates)
    }

    // The block of a whole record in its place, or the first rule on its content that it breaks. What `front` says, here and below, is of
    // bytes and result together, so that no type could carry it.
    fn block(&self, rest: &[u8]) -> Result<Record, Refusal>
        requires named { kind_of (word rest.now 2) (word rest.now 0) ≡ Some kinds.Block }
        requires whole { 7 ≤ length rest.now }
        ensures front { Front rest.now result }
        ensures value { result ≡ unless (first (content_rules kinds.Block (blocks_of self.now.prefix) 0 rest.now)) (record_of kinds.Block rest.now) }
    {
        let quantifier = Quantifier::try_from(rest[4])?;
        let size = word(rest, 5) as usize;
        if size == 0
            || size > 40
            || self.prefix.variables() + size > 128
            || self.prefix.blocks().len() >= 16
        {
            return Err(Refusal::BlockLimits);
        }
        if self.repeats(quantifier) {
            return Err(Refusal::SameQuantifier);
        }
        Ok(Record::Block(Block { quantifier, size }))
    }

    // The gate of a whole record in its place, likewise.
    fn gate(&self, rest: &[u8]) -> Result<Record, Refusal>
        requires named { kind_of (word rest.now 2) (word rest.now 0) ≡ Some kinds.Gate }
        requires whole { 8 ≤ length rest.now }
        ensures front { Front rest.now result }
        ensures value { result ≡ unless (first (content_rules kinds.Gate (blocks_of self.now.prefix) self.now.gates rest.now)) (record_of kinds.Gate rest.now) }
    {
        if self.gates >= 2000 {
            return Err(Refusal::TooManyGates);
        }
        let (left, right) = literals(rest, 4);
        let limit = self.limit();
        if left.code() as usize >= limit || right.code() as usize >= limit {
            return Err(Refusal::BadLiteral);
        }
        Ok(Record::Gate(left, right))
    }

    // The output of a whole record in its place, likewise.
    fn output(&self, rest: &[u8]) -> Result<Record, Refusal>
        requires named { kind_of (word rest.now 2) (word rest.now 0) ≡ Some kinds.Output }
        requires whole { 6 ≤ length rest.now }
        ensures front { Front rest.now result }
        ensures value { result ≡ unless (first (content_rules kinds.Output (blocks_of self.now.prefix) self.now.gates rest.now)) (record_of kinds.Output rest.now) }
    {
        let literal = Literal::new(word(rest, 4));
        if literal.code() as usize >= self.limit() {
            return Err(Refusal::BadLiteral);
        }
        if rest.len() > 6 {
            return Err(Refusal::Misplaced);
        }
        Ok(Record::Output(literal))
    }

    // The next record, or the first rule that what follows breaks.
    pub(super) fn next(&self, rest: &[u8]) -> Result<Record, Refusal>
        ensures front { Front rest.now result }
        ensures value { result ≡ next (blocks_of self.now.prefix) self.now.gates rest.now }
    {
        match self.kind(rest)? {
            Kind::Block => self.block(rest),
            Kind::Gate => self.gate(rest),
            Kind::Output => self.output(rest),
        }
    }
}
