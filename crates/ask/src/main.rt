// Reads a question from standard input, judges it whole, and prints what it did.
#![tactic(auto)]

use circuit::Gate;
use question::{Block, Question, load};
use std::io::Read;

// No accepted question has more bytes than 16,118.
const MOST_BYTES: u64 = 20_000;

// The most entries that a load takes.
const TABLE_ENTRIES: usize = 8_000;

// The blocks with their variables, which are numbered from 1 in the order of the blocks.
fn print_blocks(rt: &HostRuntime, blocks: &[Block]) -> anyhow::Result<()> {
    let mut variables = 1usize..;
    for (level, block) in (1usize..).zip(blocks) {
        let owner = block.quantifier;
        print!(rt; "block {level} {owner} variables")?;
        for variable in variables.by_ref().take(block.size) {
            print!(rt; " {variable}")?;
        }
        println!(rt; "")?;
    }
    Ok(())
}

// The gates, whose nodes follow those of the variables.
fn print_gates(rt: &HostRuntime, variables: usize, gates: &[Gate]) -> anyhow::Result<()> {
    for (node, gate) in (1usize..).skip(variables).zip(gates) {
        let left = gate.left().code();
        let right = gate.right().code();
        println!(rt; "gate {node} left {left} right {right}")?;
    }
    Ok(())
}

fn print_question(rt: &HostRuntime, length: usize, question: &Question) -> anyhow::Result<()> {
    let blocks = question.blocks();
    let gates = question.gates();
    let records = blocks.len().saturating_add(gates.len()).saturating_add(1);
    println!(rt; "accepted bytes {length} records {records}")?;
    print_blocks(rt, blocks)?;
    print_gates(rt, question.variables(), gates)?;
    let output = question.output().code();
    println!(rt; "output {output}")?;
    Ok(())
}

fn ask(rt: &HostRuntime) -> anyhow::Result<()> {
    let heap = rt.alloc();
    let mut bytes = Vec::new(heap);
    rt.stdin().take(MOST_BYTES).read_to_end(&mut bytes)?;
    let table = vec![in heap; Gate::free(); TABLE_ENTRIES]?;
    match load(bytes.as_slice(), table) {
        Ok(question) => print_question(rt, bytes.len(), &question),
        Err(rejected) => {
            let number = rejected.refusal.number();
            println!(rt; "refused {number}")?;
            Ok(())
        }
    }
}

fn main(rt: HostRuntime) -> anyhow::Result<()> {
    ask(&rt)
}
