// The monitor's calls for programs in C or Rust that link the static library: each is one call of `monitor`, under its
// contract. A slice is passed as a pointer and a length, and each list by itself: that is the
// C interface. The header is include/cells.h.
#![tactic(auto)]

ghost use Rattle.std.specs.Prelude.{◌≡◌};
ghost use Rattle.rules.specs.Numbers.{tables, state};
ghost use Rattle.rules.specs.Calls.{instruction, block_write, performed};
ghost use Rattle.monitor.specs.Answers.{came, view_place_in};
ghost use Rattle.monitor.specs.Runs.{ran, run_all};

use monitor::{Reply, ViewPlace};
use rules::{Registers, Tables, TablesMut};

// One instruction, given as four numbers.
#[unsafe(no_mangle)]
pub extern "C" fn cells_execute(
    m: usize,
    first: &[u32],
    last: &[u32],
    offset: &[u32],
    marks: &mut [u8],
    rights: &mut [u8],
    grants: &mut [u16],
    memory: &mut [u8],
    registers: Registers,
    number: u32,
    x: u32,
    y: u32,
    z: u32,
) -> Reply
    ensures { came result (tables m first.exit.now last.exit.now offset.exit.now marks.new rights.new grants.new memory.new)
        ≡ performed (state (tables m first.now last.now offset.now marks.old rights.old grants.old memory.old) registers) (instruction number x y z) }
{
    let mut tables = TablesMut {
        m,
        first,
        last,
        offset,
        marks,
        rights,
        grants,
    };
    monitor::execute(&mut tables, memory, registers, number, x, y, z)
}

// Instructions in turn, four numbers each, with their answers in two lists.
#[unsafe(no_mangle)]
pub extern "C" fn cells_execute_all(
    m: usize,
    first: &[u32],
    last: &[u32],
    offset: &[u32],
    marks: &mut [u8],
    rights: &mut [u8],
    grants: &mut [u16],
    memory: &mut [u8],
    registers: Registers,
    instructions: &[u32],
    numbers: &mut [u32],
    values: &mut [u32],
) -> Registers
    ensures { ran (state (tables m first.exit.now last.exit.now offset.exit.now marks.new rights.new grants.new memory.new) result) numbers.new values.new
        ≡ run_all (state (tables m first.now last.now offset.now marks.old rights.old grants.old memory.old) registers) instructions.now numbers.old values.old }
{
    let mut tables = TablesMut {
        m,
        first,
        last,
        offset,
        marks,
        rights,
        grants,
    };
    monitor::execute_all(
        &mut tables,
        memory,
        registers,
        instructions,
        numbers,
        values,
    )
}

// A block write.
#[unsafe(no_mangle)]
pub extern "C" fn cells_write_block(
    m: usize,
    first: &[u32],
    last: &[u32],
    offset: &[u32],
    marks: &[u8],
    rights: &[u8],
    grants: &[u16],
    memory: &mut [u8],
    registers: Registers,
    x: u32,
    bytes: &[u8],
) -> Reply
    ensures { came result (tables m first.exit.now last.exit.now offset.exit.now marks.exit.now rights.exit.now grants.exit.now memory.new)
        ≡ performed (state (tables m first.now last.now offset.now marks.now rights.now grants.now memory.old) registers) (block_write x bytes.now) }
{
    let tables = Tables {
        m,
        first,
        last,
        offset,
        marks,
        rights,
        grants,
    };
    monitor::write_block(tables, memory, registers, x, bytes)
}

// A read view's answer, with the place of its part in the memory: no reference can be handed out to C.
#[unsafe(no_mangle)]
pub extern "C" fn cells_view(
    m: usize,
    first: &[u32],
    last: &[u32],
    offset: &[u32],
    marks: &[u8],
    rights: &[u8],
    grants: &[u16],
    memory: &[u8],
    registers: Registers,
    x: u32,
    n: usize,
) -> ViewPlace
    ensures { result ≡ view_place_in (state (tables m first.now last.now offset.now marks.now rights.now grants.now memory.now) registers) x n }
{
    let tables = Tables {
        m,
        first,
        last,
        offset,
        marks,
        rights,
        grants,
    };
    monitor::view_place(tables, memory, registers, x, n)
}
