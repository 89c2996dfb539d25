// What a line of the output has, field by field: the answer, then what changed.
use crate::lists::Lists;
use rules::Registers;
use std::fmt::Display;
use std::io;
use std::io::Write;

// A call's number and value.
pub fn answer<W: Write>(out: &mut W, number: u32, value: u32) -> io::Result<()> {
    write!(out, "\t{number}\t{value}")
}

// The registers, where they changed.
fn core<W: Write>(out: &mut W, before: Registers, after: Registers) -> io::Result<()> {
    if before == after {
        return Ok(());
    }
    let Registers {
        current,
        caller,
        place,
    } = after;
    write!(out, "\tcore\t{current}\t{caller}\t{place}")
}

// The bytes that a view handed back.
pub fn part<W: Write>(out: &mut W, bytes: &[u8]) -> io::Result<()> {
    write!(out, "\tpart")?;
    for byte in bytes {
        write!(out, "\t{byte}")?;
    }
    Ok(())
}

// Every changed entry of a list, after a word for it. Most lists are as they were: those are told by one comparison, which
// goes by many entries at once. Entry by entry alone all of the cases take six times as long.
fn changed<W: Write, T: Display + PartialEq>(
    out: &mut W,
    word: impl Display + Drop,
    before: &[T],
    after: &[T],
) -> io::Result<()> {
    if before == after {
        return Ok(());
    }
    for (i, (was, is)) in before.iter().zip(after).enumerate() {
        if was != is {
            write!(out, "\t{word}\t{i}\t{is}")?;
        }
    }
    Ok(())
}

// The same of a list that has an entry for each cell and division, by these two.
fn changed_by_cell<W: Write, T: Display + PartialEq>(
    out: &mut W,
    word: &str,
    m: usize,
    before: &[T],
    after: &[T],
) -> io::Result<()> {
    if before == after {
        return Ok(());
    }
    let across = m.max(1);
    for (cell, (was, is)) in before.chunks(across).zip(after.chunks(across)).enumerate() {
        changed(out, format_args!("{word}\t{cell}"), was, is)?;
    }
    Ok(())
}

// All that is not as it was.
pub fn changes<W: Write>(out: &mut W, before: &Lists, after: &Lists) -> io::Result<()> {
    core(out, before.registers, after.registers)?;
    changed(out, "mark", &before.marks, &after.marks)?;
    changed_by_cell(out, "right", after.m, &before.rights, &after.rights)?;
    changed_by_cell(out, "grant", after.m, &before.grants, &after.grants)?;
    changed(out, "byte", &before.memory, &after.memory)
}
