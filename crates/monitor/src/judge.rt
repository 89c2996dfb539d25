// The checks of each instruction on the cell that covers its address: these only look. Each judge makes its checks in their
// order, and the first to fail is the refusal.
ghost use Rattle.std.specs.Prelude.{◌≡◌, [], ◌∷◌, not, eqb};
ghost use Rattle.rules.specs.Lent.{lent};
ghost use Rattle.rules.specs.Numbers.{state, part_of, execute};
ghost use Rattle.rules.specs.Instructions.{needs};
ghost use Rattle.monitor.specs.Ready.{Ready, made};
ghost use Rattle.rules.specs.Refusals.{not_valid, not_whole, right_missing, no_grant, other_holds, not_entry, same_rights, ◌unless◌, failing, first_failing};

use crate::look::{entry_word, grant_names, held_at, nobody_else, whole_word};
use rules::{Instruction, Refusal, Registers, Tables};

// One check: it passes, or is this refusal.
#[tactic(auto, unfolding(crate::specs::Ready::made))]
fn check(passes: bool, refusal: Refusal) -> Result<(), Refusal>
    ensures { result ≡ made passes refusal }
{
    if passes { Ok(()) } else { Err(refusal) }
}

// Load, store, grant and transfer: the right or rights `needed`, of the rights `held`.
#[tactic(auto, unfolding(crate::specs::Ready::made, rules::specs::Refusals::first_failing))]
pub fn judge_right(valid: bool, needed: u8, held: u8) -> Result<(), Refusal>
    ensures { failing result ≡ first_failing (not_valid unless valid ∷ right_missing unless part_of needed held ∷ []) }
{
    check(valid, Refusal::NotValid)?;
    check(rules::part_of(needed, held), Refusal::RightMissing)
}

// Fetch, block write and read view: a whole word, or a block that does not run past the cell, and the right `needed`.
#[tactic(auto, unfolding(crate::specs::Ready::made, rules::specs::Refusals::first_failing))]
pub fn judge_whole(valid: bool, whole: bool, needed: u8, held: u8) -> Result<(), Refusal>
    ensures { failing result ≡ first_failing (not_valid unless valid ∷ not_whole unless whole ∷ right_missing unless part_of needed held ∷ []) }
{
    check(valid, Refusal::NotValid)?;
    check(whole, Refusal::NotWhole)?;
    check(rules::part_of(needed, held), Refusal::RightMissing)
}

// Switch: as fetch with the target's rights, and the entry word.
#[tactic(auto, unfolding(crate::specs::Ready::made, rules::specs::Refusals::first_failing))]
pub fn judge_switch(valid: bool, whole: bool, held: u8, entry: bool) -> Result<(), Refusal>
    ensures { failing result ≡ first_failing (not_valid unless valid ∷ not_whole unless whole ∷ right_missing unless part_of execute held ∷ not_entry unless entry ∷ []) }
{
    judge_whole(valid, whole, rules::EXECUTE, held)?;
    check(entry, Refusal::NotEntry)
}

// Protect: the rights `asked` are part of those held, and not the same.
#[tactic(auto, unfolding(crate::specs::Ready::made, rules::specs::Refusals::first_failing))]
pub fn judge_protect(valid: bool, asked: u8, held: u8) -> Result<(), Refusal>
    ensures { failing result ≡ first_failing (not_valid unless valid ∷ right_missing unless part_of asked held ∷ same_rights unless not (eqb asked held) ∷ []) }
{
    judge_right(valid, asked, held)?;
    check(asked != held, Refusal::SameRights)
}

// Receive: a grant from the source that names the current division. No right is needed.
#[tactic(auto, unfolding(crate::specs::Ready::made, rules::specs::Refusals::first_failing))]
pub fn judge_receive(valid: bool, named: bool) -> Result<(), Refusal>
    ensures { failing result ≡ first_failing (not_valid unless valid ∷ no_grant unless named ∷ []) }
{
    check(valid, Refusal::NotValid)?;
    check(named, Refusal::NoGrant)
}

// Exclusive, and the first two checks of invalidate and revalidate: the mark as it must be, and any right.
#[tactic(auto, unfolding(crate::specs::Ready::made, rules::specs::Refusals::first_failing))]
pub fn judge_any(marked: bool, held: u8) -> Result<(), Refusal>
    ensures { failing result ≡ first_failing (not_valid unless marked ∷ right_missing unless not (eqb held 0) ∷ []) }
{
    check(marked, Refusal::NotValid)?;
    check(held != 0, Refusal::RightMissing)
}

// Invalidate: any right, and nobody else with one.
#[tactic(auto, unfolding(crate::specs::Ready::made, rules::specs::Refusals::first_failing))]
pub fn judge_invalidate(valid: bool, held: u8, alone: bool) -> Result<(), Refusal>
    ensures { failing result ≡ first_failing (not_valid unless valid ∷ right_missing unless not (eqb held 0) ∷ other_holds unless alone ∷ []) }
{
    judge_any(valid, held)?;
    check(alone, Refusal::OtherHolds)
}

// The checks of an instruction on the cell `c` that covers its address: a match on its kind, as document 01 names that form.
pub fn judge(
    tables: Tables,
    memory: &[u8],
    registers: Registers,
    c: usize,
    i: Instruction,
) -> Result<(), Refusal>
    requires { Ready (state (lent tables memory.now) registers) i c }
    ensures { failing result ≡ first_failing (needs (lent tables.entry memory.now) registers.current c i) }
{
    let d = registers.current as usize;
    let valid = tables.marks[c] == 1;
    let held = held_at(tables, c, d);
    match i {
        Instruction::Load(_) => judge_right(valid, rules::READ, held),
        Instruction::Store(_, _) => judge_right(valid, rules::WRITE, held),
        Instruction::Fetch(x) => {
            let whole = whole_word(tables.last[c], x);
            judge_whole(valid, whole, rules::EXECUTE, held)
        }
        Instruction::Switch(x, y) => {
            let target = held_at(tables, c, y as usize);
            let whole = whole_word(tables.last[c], x);
            judge_switch(
                valid,
                whole,
                target,
                entry_word(tables, memory, whole, c, x),
            )
        }
        Instruction::Protect(_, y) => judge_protect(valid, y, held),
        Instruction::Grant(_, _, z) => judge_right(valid, z, held),
        Instruction::Receive(_, y) => {
            let g = tables.grants[c * tables.m + y as usize];
            judge_receive(valid, grant_names(g, registers.current))
        }
        Instruction::Transfer(_, _, z) => judge_right(valid, z, held),
        Instruction::Invalidate(_) => judge_invalidate(valid, held, nobody_else(tables, c, d)),
        Instruction::Revalidate(_) => judge_any(!valid, held),
        Instruction::Exclusive(_) => judge_any(valid, held),
    }
}
