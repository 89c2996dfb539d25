// `execute`, `write_block`, and `view` with `view_answer`, on what is lent.
use crate::lists::Lists;
use crate::show::{answer, part};
use crate::words::Call;
use monitor::Reply;
use rules::{Tables, TablesMut};
use std::io;
use std::io::Write;

// An instruction.
fn execute(lists: &mut Lists, number: u32, x: u32, y: u32, z: u32) -> Reply {
    let n = lists.lengths();
    // The borrow checker takes a part of a list that is lent to be written only by way of the whole.
    let marks = &mut lists.marks[..];
    let rights = &mut lists.rights[..];
    let grants = &mut lists.grants[..];
    let memory = &mut lists.memory[..];
    let mut tables = TablesMut {
        m: lists.m,
        first: &lists.first[..n.first],
        last: &lists.last[..n.last],
        offset: &lists.offset[..n.offset],
        marks: &mut marks[..n.marks],
        rights: &mut rights[..n.rights],
        grants: &mut grants[..n.grants],
    };
    monitor::execute(
        &mut tables,
        &mut memory[..n.memory],
        lists.registers,
        number,
        x,
        y,
        z,
    )
}

// The tables for reading.
fn tables(lists: &Lists) -> Tables<'_> {
    let n = lists.lengths();
    Tables {
        m: lists.m,
        first: &lists.first[..n.first],
        last: &lists.last[..n.last],
        offset: &lists.offset[..n.offset],
        marks: &lists.marks[..n.marks],
        rights: &lists.rights[..n.rights],
        grants: &lists.grants[..n.grants],
    }
}

// A block write. The tables are made in place: `tables` would lend the memory for reading too.
fn write_block(lists: &mut Lists, address: u32, bytes: &[u8]) -> Reply {
    let n = lists.lengths();
    let memory = &mut lists.memory[..];
    let tables = Tables {
        m: lists.m,
        first: &lists.first[..n.first],
        last: &lists.last[..n.last],
        offset: &lists.offset[..n.offset],
        marks: &lists.marks[..n.marks],
        rights: &lists.rights[..n.rights],
        grants: &lists.grants[..n.grants],
    };
    monitor::write_block(
        tables,
        &mut memory[..n.memory],
        lists.registers,
        address,
        bytes,
    )
}

// A read view: its answer, and the part itself.
fn view<W: Write>(out: &mut W, lists: &Lists, address: u32, length: usize) -> io::Result<()> {
    let tables = tables(lists);
    let memory = &lists.memory[..lists.lengths().memory];
    match monitor::view_answer(tables, memory, lists.registers, address, length) {
        Ok(()) => answer(out, 0, 0)?,
        Err(refusal) => answer(out, refusal.number(), refusal.value())?,
    }
    let bytes = monitor::view(tables, memory, lists.registers, address, length);
    part(out, bytes)
}

// Makes a case's call, with the first bytes of the block for a block write, and writes what it answered.
pub fn perform<W: Write>(
    out: &mut W,
    lists: &mut Lists,
    call: Call,
    block: &[u8],
) -> io::Result<()> {
    let reply = match call {
        Call::Do(number, x, y, z) => execute(lists, number, x, y, z),
        Call::Write(address, n) => write_block(lists, address, &block[..n.min(block.len())]),
        Call::View(address, n) => return view(out, lists, address, n),
    };
    lists.registers = reply.registers;
    answer(out, reply.number, reply.value)
}
