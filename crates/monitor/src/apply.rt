// What an accepted instruction does. These only write, and cannot refuse.
ghost use Rattle.std.specs.Prelude.{◌≡◌, ◌+◌, ◌-◌, ◌*◌, ◌≤◌, ◌<◌, length, get_or, set};
ghost use Rattle.rules.specs.Lent.{lent_mut, SameLists};
ghost use Rattle.rules.specs.Numbers.{state, join, grant_entry, rights_in};
ghost use Rattle.rules.specs.Instructions.{needs};
ghost use Rattle.rules.specs.Calls.{done_at};
ghost use Rattle.rules.proofs.Checks.{AllHold};
ghost use Rattle.monitor.specs.Ready.{Ready, accepted_as};

use crate::look::{held_at, nobody_else, place_of, word_in};
use crate::reply::Accepted;
use rules::{Instruction, Registers, TablesMut};

// The entry of a grant of rights `z` to `y`: a number, as the lists have it that C lends.
fn grant_entry(y: u32, z: u8) -> u16
    requires { (y < 256) × (z ≤ 7) }
    ensures { result ≡ grant_entry y z }
{
    y as u16 + 256 * (z as u16)
}

// The grant of `y` on cell `c` joins the rights of `d` and is gone; the rights of `d` afterwards. The grant's rights are one quotient
// of the number that C lends.
fn take_grant(m: usize, rights: &mut [u8], grants: &mut [u16], c: usize, d: usize, y: usize) -> u8
    requires { (c * m + d < length rights.old) × (c * m + y < length grants.old) }
    ensures value { result ≡ join (get_or rights.old (c * m + d) 0) (rights_in (get_or grants.old (c * m + y) 0)) }
    ensures rights_after { rights.new ≡ set rights.old (c * m + d) result }
    ensures grants_after { grants.new ≡ set grants.old (c * m + y) 0 }
{
    let granted = (grants[c * m + y] / 256) as u8;
    let joined = rules::join_of(rights[c * m + d], granted);
    rights[c * m + d] = joined;
    grants[c * m + y] = 0;
    joined
}

// What an instruction does on the cell `c` that covers its address, once all its checks hold: a match on its kind, the form that
// document 01 names. `same_lists`, here and where it is handed on, tells of what the `&mut` points at, before and after: no
// type of one value says that.
pub fn apply(
    tables: &mut TablesMut,
    memory: &mut [u8],
    registers: Registers,
    c: usize,
    i: Instruction,
) -> Accepted
    requires ready { Ready (state (lent_mut tables.old memory.old) registers) i c }
    requires all_hold { AllHold (needs (lent_mut tables.old memory.old) registers.current c i) }
    ensures done { accepted_as result (lent_mut tables.new memory.new) ≡ done_at (state (lent_mut tables.old memory.old) registers) c i }
    ensures same_lists { SameLists tables.old tables.new }
{
    let d = registers.current as usize;
    let own = c * tables.m + d;
    let now = tables.tables();
    let held = held_at(now, c, d);
    match i {
        Instruction::Load(x) => {
            let place = place_of(now, c, x);
            Accepted(memory[place] as u32, registers)
        }
        Instruction::Store(x, y) => {
            let place = place_of(now, c, x);
            memory[place] = y;
            Accepted(0, registers)
        }
        Instruction::Fetch(x) => Accepted(word_in(memory, place_of(now, c, x)), registers),
        Instruction::Switch(x, y) => Accepted(registers.current, registers.after_switch(y, x)),
        Instruction::Protect(_, y) => {
            tables.rights[own] = y;
            Accepted(y as u32, registers)
        }
        Instruction::Grant(_, y, z) => {
            tables.grants[own] = grant_entry(y, z);
            Accepted(held as u32, registers)
        }
        Instruction::Receive(_, y) => {
            let y = y as usize;
            let joined = take_grant(tables.m, tables.rights, tables.grants, c, d, y);
            Accepted(joined as u32, registers)
        }
        Instruction::Transfer(_, y, z) => {
            tables.grants[own] = grant_entry(y, z);
            tables.rights[own] = 0;
            Accepted(0, registers)
        }
        Instruction::Invalidate(_) => {
            tables.marks[c] = 0;
            Accepted(held as u32, registers)
        }
        Instruction::Revalidate(_) => {
            tables.marks[c] = 1;
            Accepted(held as u32, registers)
        }
        Instruction::Exclusive(_) => Accepted(nobody_else(now, c, d) as u32, registers),
    }
}
