// One well-formed instruction: the cell that covers its address is found, its checks are made, and then it is done.
ghost use Rattle.std.specs.Prelude.{◌≡◌};
ghost use Rattle.rules.specs.Lent.{lent_mut, SameLists};
ghost use Rattle.rules.specs.Numbers.{state};
ghost use Rattle.rules.specs.Calls.{instruction, performed};
ghost use Rattle.rules.proofs.Decoding.{InRange};
ghost use Rattle.rules.proofs.Kept.{Begun};
ghost use Rattle.monitor.specs.Answers.{came};
ghost use Rattle.monitor.specs.Ready.{gave, kind_performed};
ghost use Rattle.monitor.specs.Runs.{listed};

use crate::apply::apply;
use crate::find::find;
use crate::judge::judge;
use crate::reply::{Accepted, Reply};
use rules::{Instruction, Refusal, Registers, TablesMut};

// A reply beside the listing position of its instruction. `Placed` has the instruction itself, as document 01 names that form.
#[derive(Clone, Copy)]
pub struct Answered {
    pub position: usize,
    pub reply: Reply,
}

// What a well-formed instruction answers and does, on tables and registers that checks 1, 2 and 3 let through. `Begun` is a
// clause of four functions, and no field of a struct: `apply` would have to show it after each write, and so it is shown
// once for a whole instruction (`begun_kept`).
pub fn step(
    tables: &mut TablesMut,
    memory: &mut [u8],
    registers: Registers,
    i: Instruction,
) -> Result<Accepted, Refusal>
    requires begun { Begun (state (lent_mut tables.old memory.old) registers) }
    requires in_range { InRange tables.old.m registers.current i }
    ensures done { gave result registers (lent_mut tables.new memory.new) ≡ kind_performed (state (lent_mut tables.old memory.old) registers) i }
    ensures same_lists { SameLists tables.old tables.new }
{
    let c = find(tables.first, tables.last, i.address()).ok_or(Refusal::NotCovered)?;
    judge(tables.tables(), memory, registers, c, i)?;
    Ok(apply(tables, memory, registers, c, i))
}

// What four numbers at a listing position answer and do, on tables and registers that checks 1, 2 and 3 let through. The
// answer stays beside the position, so that it is written where it belongs. The four numbers are parameters, as C passes them.
pub fn perform(
    tables: &mut TablesMut,
    memory: &mut [u8],
    registers: Registers,
    position: usize,
    number: u32,
    x: u32,
    y: u32,
    z: u32,
) -> Answered
    requires { Begun (state (lent_mut tables.old memory.old) registers) }
    ensures done { listed result.position (came result.reply (lent_mut tables.new memory.new))
        ≡ listed position (performed (state (lent_mut tables.old memory.old) registers) (instruction number x y z)) }
    ensures same_lists { SameLists tables.old tables.new }
{
    let m = tables.m as u32;
    match rules::decode(m, registers.current, position, number, x, y, z) {
        Ok(placed) => {
            let answer = step(tables, memory, registers, placed.instruction);
            Answered {
                position: placed.position,
                reply: Reply::new(answer, registers),
            }
        }
        Err(refusal) => Answered {
            position,
            reply: Reply::new(Err(refusal), registers),
        },
    }
}
