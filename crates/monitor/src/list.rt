// Instructions one after the other, on tables that are checked once.
ghost use Rattle.std.specs.Prelude.{◌≡◌, ◌*◌, ◌≤◌, length};
ghost use Rattle.rules.specs.Lent.{lent_mut, SameLists};
ghost use Rattle.rules.specs.Numbers.{state};
ghost use Rattle.rules.proofs.Kept.{Begun};
ghost use Rattle.monitor.specs.Runs.{room_for, ran, run_first};

use crate::step::perform;
use rules::{Registers, TablesMut};

// How many whole instructions there are, of four numbers each, with room for both answers.
#[tactic(auto, unfolding(crate::specs::Runs::room_for))]
pub fn room_for(instructions: usize, numbers: usize, values: usize) -> usize
    ensures { result ≡ room_for instructions numbers values }
{
    (instructions / 4).min(numbers).min(values)
}

// The first `count` instructions in turn, on tables and registers that checks 1, 2 and 3 let through: an instruction keeps
// them so, and a refused one does not stop the rest. The count is said once, beside the lists: as slices each of the
// three would say its own, and every contract that they agree.
pub fn run_list(
    tables: &mut TablesMut,
    memory: &mut [u8],
    registers: Registers,
    instructions: &[u32],
    count: usize,
    numbers: &mut [u32],
    values: &mut [u32],
) -> Registers
    requires begun { Begun (state (lent_mut tables.old memory.old) registers) }
    requires room { (4 * count ≤ length instructions.now) × ((count ≤ length numbers.old) × (count ≤ length values.old)) }
    ensures answers { ran (state (lent_mut tables.new memory.new) result) numbers.new values.new
        ≡ run_first (state (lent_mut tables.old memory.old) registers) instructions.now count numbers.old values.old }
    ensures same_lists { SameLists tables.old tables.new }
{
    let mut core = registers;
    for k in 0..count {
        let at = 4 * k;
        let answered = perform(
            tables,
            memory,
            core,
            k + 1,
            instructions[at],
            instructions[at + 1],
            instructions[at + 2],
            instructions[at + 3],
        );
        let reply = answered.reply;
        // Positions count from 1, entries from 0.
        let entry = answered.position - 1;
        numbers[entry] = reply.number;
        values[entry] = reply.value;
        core = reply.registers;
    }
    core
}
