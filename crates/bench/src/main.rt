// Runs the bench cases of document 01, and cases for the rest of its rules, through the monitor's calls, and writes a
// line for each: the case's number, the call's number and value, and everything that the call changed. The cases are in
// `cases`, and `words` says what they mean. docs/BENCH.md derives every line by hand.
#![tactic(auto)]

mod call;
mod cases;
mod lists;
mod show;
mod words;

use call::perform;
use cases::tables;
use lists::Lists;
use show::changes;
use std::io;
use std::io::Write;
use words::Case;

// Runs one case, and writes its line.
fn run<W: Write>(
    out: &mut W,
    number: u32,
    case: &Case,
    lists: &mut Lists,
    block: &[u8],
) -> io::Result<()> {
    let Case(start, settings, call) = *case;
    if let Err(error) = lists.prepare(start, settings) {
        writeln!(out, "{error}")?;
    }
    let before = *lists;
    write!(out, "{number}")?;
    perform(out, lists, call, block)?;
    changes(out, &before, lists)?;
    writeln!(out)
}

// Every case, numbered from 1.
fn run_all<W: Write>(out: &mut W, lists: &mut Lists, block: &[u8]) -> io::Result<()> {
    for (number, case) in (1u32..).zip(tables().into_iter().flatten()) {
        run(out, number, case, lists, block)?;
    }
    Ok(())
}

// The bytes of every block: 1 to 255, over and over.
fn fill(block: &mut [u8]) {
    for (i, byte) in block.iter_mut().enumerate() {
        *byte = (i % 255 + 1) as u8;
    }
}

fn main(rt: HostRuntime) -> io::Result<()> {
    let mut lists = Lists::new();
    let mut block = [0u8; 65537];
    fill(&mut block);
    run_all(&mut rt.stdout(), &mut lists, &block)
}
