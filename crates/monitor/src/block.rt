// Blocks of bytes: where one lies, and how it is filled.
ghost use Rattle.std.specs.Prelude.{◌≡◌, length};
ghost use Rattle.rules.specs.Lent.{lent};
ghost use Rattle.rules.specs.Numbers.{state};
ghost use Rattle.rules.specs.Blocks.{within_cell};
ghost use Rattle.rules.proofs.Kept.{Begun};
ghost use Rattle.monitor.specs.Leaves.{located, located_in};

use crate::find::find;
use crate::judge::judge_whole;
use crate::look::{held_at, place_of};
use rules::{Refusal, Registers, Tables};

// Whether `n` bytes from `x` on do not run past `last`. The sum cannot wrap: it has 64 bits, and is made only for a block
// of no more bytes than there are addresses: the test that the wrong program `length_added_with_a_wrap` moves.
#[tactic(auto, using(crate::proofs::Locating::beyond_cell), unfolding(rules::specs::Blocks::within_cell))]
pub fn within_cell(last: u32, x: u32, n: usize) -> bool
    ensures { result ≡ within_cell last x n }
{
    if n <= 4294967296 {
        let end = x as usize + n;
        end <= last as usize + 1
    } else {
        false
    }
}

// Checks 6 to 9 on a block of `n` bytes at `x`, with the right `needed`; its place where they hold. Address and length are two
// numbers, as the views' contracts take them, and no struct: each call has one block, and hands it on.
pub fn locate(
    needed: u8,
    tables: Tables,
    memory: &[u8],
    registers: Registers,
    x: u32,
    n: usize,
) -> Result<usize, Refusal>
    requires { Begun (state (lent tables memory.now) registers) }
    ensures { located result ≡ located_in needed (state (lent tables.entry memory.now) registers) x n }
{
    let c = find(tables.first, tables.last, x).ok_or(Refusal::NotCovered)?;
    let held = held_at(tables, c, registers.current as usize);
    let within = within_cell(tables.last[c], x, n);
    judge_whole(tables.marks[c] == 1, within, needed, held)?;
    Ok(place_of(tables, c, x))
}

// Fills a part of the memory with as many bytes: the function to which a part is lent on, as document 01 names that form. Byte by
// byte: by `copy_from_slice` the static library would need `memmove` from outside.
pub fn copy_into(part: &mut [u8], bytes: &[u8])
    requires { length bytes.now ≡ length part.old }
    ensures { part.new ≡ bytes.now }
{
    for (i, byte) in bytes.iter().enumerate() {
        part[i] = *byte;
    }
}
