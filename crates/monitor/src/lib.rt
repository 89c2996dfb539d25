// The monitor's calls. Each tests everything that it is lent, and none has a `requires`. A refusal gives the number of
// the first failing check and changes nothing.
#![tactic(auto)]

mod apply;
mod block;
mod find;
mod judge;
mod list;
mod look;
mod reply;
mod step;

ghost use Rattle.std.specs.Prelude.{◌≡◌, ◌&&◌, ltb};
ghost use Rattle.monitor.specs.Runs.{ran, run_all};
ghost use Rattle.rules.specs.Numbers.{state};
ghost use Rattle.rules.specs.Lent.{lent, lent_mut, SameLists, refers, part_of_lent};
ghost use Rattle.rules.specs.Refusals.{answer_of};
ghost use Rattle.rules.specs.Calls.{instruction, block_write, read_view, performed};
ghost use Rattle.monitor.specs.Answers.{came, answer_in, view_place_in};
ghost use Rattle.monitor.specs.Ready.{first_answer};
ghost use Rattle.monitor.specs.Leaves.{located, placed_in};

use block::{copy_into, locate};
use list::{room_for, run_list};
use reply::Accepted;
pub use reply::{Reply, ViewPlace};
use rules::{Refusal, Registers, Tables, TablesMut};

// Whether current and caller are divisions.
fn known(m: usize, registers: Registers) -> bool
    ensures { result ≡ (ltb registers.current m && ltb registers.caller m) }
{
    ((registers.current as usize) < m) & ((registers.caller as usize) < m)
}

// Checks 1, 2 and 3, with which every call begins.
fn begin(tables: Tables, memory: &[u8], registers: Registers) -> Result<(), Refusal>
    ensures { answer_of result ≡ first_answer (state (lent tables.entry memory.now) registers) }
{
    tables::check(tables, memory)?;
    if known(tables.m, registers) {
        Ok(())
    } else {
        Err(Refusal::NoSuchDivision)
    }
}

// Instructions in turn, four numbers each, with their answers in two lent lists, as C lends them: as many as are whole and have room for
// both answers. The tables are checked once; where check 1, 2 or 3 fails, every instruction is answered with it.
pub fn execute_all(
    tables: &mut TablesMut,
    memory: &mut [u8],
    registers: Registers,
    instructions: &[u32],
    numbers: &mut [u32],
    values: &mut [u32],
) -> Registers
    ensures answers { ran (state (lent_mut tables.new memory.new) result) numbers.new values.new
        ≡ run_all (state (lent_mut tables.old memory.old) registers) instructions.now numbers.old values.old }
    ensures same_lists { SameLists tables.old tables.new }
{
    let count = room_for(instructions.len(), numbers.len(), values.len());
    match begin(tables.tables(), memory, registers) {
        Ok(()) => run_list(
            tables,
            memory,
            registers,
            instructions,
            count,
            numbers,
            values,
        ),
        Err(refusal) => {
            numbers[..count].fill(refusal.number());
            values[..count].fill(refusal.value());
            registers
        }
    }
}

// One instruction, given as four numbers, as C passes them: a list of one.
pub fn execute(
    tables: &mut TablesMut,
    memory: &mut [u8],
    registers: Registers,
    number: u32,
    x: u32,
    y: u32,
    z: u32,
) -> Reply
    ensures answer { came result (lent_mut tables.new memory.new)
        ≡ performed (state (lent_mut tables.old memory.old) registers) (instruction number x y z) }
    ensures same_lists { SameLists tables.old tables.new }
{
    let mut numbers = [0];
    let mut values = [0];
    let after = execute_all(
        tables,
        memory,
        registers,
        &[number, x, y, z],
        &mut numbers,
        &mut values,
    );
    Reply {
        number: numbers[0],
        value: values[0],
        registers: after,
    }
}

// Checks 1, 2 and 3, and then those on a block of `n` bytes at `x`, with the right `needed`; its place where they hold. The hint saves
// 144 bytes of stack: the tables are a struct, which a call by itself would copy.
#[inline(always)]
fn place_block(
    needed: u8,
    tables: Tables,
    memory: &[u8],
    registers: Registers,
    x: u32,
    n: usize,
) -> Result<usize, Refusal>
    ensures { located result ≡ placed_in needed (state (lent tables.entry memory.now) registers) x n }
{
    begin(tables, memory, registers)?;
    locate(needed, tables, memory, registers, x, n)
}

// The bytes of the memory from the place of `x` on become `bytes`; every other byte stays.
pub fn write_block(
    tables: Tables,
    memory: &mut [u8],
    registers: Registers,
    x: u32,
    bytes: &[u8],
) -> Reply
    ensures { came result (lent tables.exit memory.new)
        ≡ performed (state (lent tables.entry memory.old) registers) (block_write x bytes.now) }
{
    match place_block(rules::WRITE, tables, memory, registers, x, bytes.len()) {
        Ok(place) => {
            let end = place + bytes.len();
            copy_into(&mut memory[place..end], bytes);
            Reply::new(Ok(Accepted(0, registers)), registers)
        }
        Err(refusal) => Reply::new(Err(refusal), registers),
    }
}

// The part of the lent memory itself that holds the `n` bytes from `x` on; on a refusal an empty part, at its start.
pub fn view<'a>(
    tables: Tables,
    memory: &'a [u8],
    registers: Registers,
    x: u32,
    n: usize,
) -> &'a [u8]
    ensures { refers result ≡ part_of_lent memory.entry (view_place_in (state (lent tables.entry memory.now) registers) x n).start
        (performed (state (lent tables.entry memory.now) registers) (read_view x n)).part }
{
    match place_block(rules::READ, tables, memory, registers, x, n) {
        Ok(place) => {
            let end = place + n;
            &memory[place..end]
        }
        Err(_) => &memory[0..0],
    }
}

// The number and the value of a read view of the same values. By a match, whose arms are those of `view`; the wrong program
// `view_answer_hides_the_number` changes one.
pub fn view_answer(
    tables: Tables,
    memory: &[u8],
    registers: Registers,
    x: u32,
    n: usize,
) -> Result<(), Refusal>
    ensures { answer_of result ≡ answer_in (performed (state (lent tables.entry memory.now) registers) (read_view x n)) }
{
    match place_block(rules::READ, tables, memory, registers, x, n) {
        Ok(_) => Ok(()),
        Err(refusal) => Err(refusal),
    }
}

// The same, with the place of the part in the memory, for callers that cannot be handed a reference.
pub fn view_place(
    tables: Tables,
    memory: &[u8],
    registers: Registers,
    x: u32,
    n: usize,
) -> ViewPlace
    ensures { result ≡ view_place_in (state (lent tables.entry memory.now) registers) x n }
{
    match place_block(rules::READ, tables, memory, registers, x, n) {
        Ok(place) => ViewPlace {
            number: 0,
            value: 0,
            start: place,
            count: n,
        },
        Err(refusal) => ViewPlace {
            number: refusal.number(),
            value: refusal.value(),
            start: 0,
            count: 0,
        },
    }
}
