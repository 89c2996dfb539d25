// The lines that are written. A function asks for the room that `put_row` tests, ten digits to a number, and answers by how
// far it goes at most: an answer takes 34 bytes, a right 18 and a grant 22, since most of their numbers are small.
// `cells`, `bad` and `core` are a function each, and so are `right` and `grant`: the keyword, the numbers and the room are all that
// each of them says.
ghost use Rattle.std.specs.Prelude.{ℕ, List, ◌≡◌, ◌+◌, ◌*◌, ◌<◌, ◌≤◌, length, get_or};
ghost use Rattle.text.specs.Text.{Puts};
ghost use Rattle.listing.specs.Words.{bad_word, cells_word};
ghost use Rattle.listing.specs.Output.{line1, lines_of, core_line, right_line, grant_line, state_lines};
ghost use Rattle.listing.specs.Reading.{answer_of, Writes};

use crate::bounds::{Loaded, Size};
use rules::Registers;
use text::put_row;

// What `line` writes of each entry of the list, numbered from 0, one behind the other: whatever text the calls tell of an
// entry, of at most `most` bytes, and whatever room they ask for beside it.
fn put_lines<T: Copy, F: Fn(&mut [u8], usize, usize, T) -> usize>(
    out: &mut [u8],
    at: usize,
    list: &[T],
    line: F,
) -> usize
    requires callable { (o : _) (i e : ℕ) (x : _) → e < length list.now → F.pre line o i e x }
    ensures { (text : ℕ → List ℕ) (most spare : ℕ) → Writes (F.post line) list.now text most spare
        → at + most * length list.now + spare ≤ length out.old
        → Puts out at (lines_of text 0 (length list.now)) result × (result ≤ at + most * length list.now) }
{
    let mut next = at;
    for (e, x) in list.iter().enumerate() {
        next = line(out, next, e, *x);
    }
    next
}

// `cells 1`, with which all that is written begins.
pub fn put_head(out: &mut [u8]) -> usize
    requires { 17 ≤ length out.old }
    ensures puts { Puts out 0 (line1 cells_word 1) result }
    ensures ends { result ≤ 17 }
{
    put_row(out, 0, b"cells", &[1])
}

// `bad` and the line.
pub fn put_bad(out: &mut [u8], at: usize, line: u32) -> usize
    requires { at + 15 ≤ length out.old }
    ensures puts { Puts out at (line1 bad_word line) result }
    ensures ends { result ≤ at + 15 }
{
    put_row(out, at, b"bad", &[line])
}

// `answer`, position from 1, number and value.
pub fn put_answers(out: &mut [u8], at: usize, numbers: &[u32], values: &[u32]) -> usize
    requires { (length numbers.now ≤ 5957) × (length values.now ≡ length numbers.now) × (at + 34 * length numbers.now + 6 ≤ length out.old) }
    ensures puts { Puts out at (lines_of (answer_of numbers.now values.now) 0 (length numbers.now)) result }
    ensures ends { result ≤ at + 34 * length numbers.now }
{
    put_lines(out, at, numbers, |out, at, k, number| {
        put_row(out, at, b"answer", &[k as u32 + 1, number, values[k]])
    })
}

// `core` current caller place.
pub fn put_core(out: &mut [u8], at: usize, r: Registers) -> usize
    requires { at + 38 ≤ length out.old }
    ensures puts { Puts out at (core_line r) result }
    ensures ends { result ≤ at + 38 }
{
    put_row(out, at, b"core", &[r.current, r.caller, r.place])
}

// `right`, cell, division and rights of the entry e, unless it is 0.
#[tactic(auto, unfolding(crate::specs::Output::right_line))]
fn put_right(out: &mut [u8], at: usize, size: Size, e: usize, right: u8) -> usize
    requires { e ≤ 8191 }
    ensures { (rights : List ℕ) → right ≡ get_or rights e 0 → at + 39 ≤ length out.old
        → Puts out at (right_line size.m rights e) result × (result ≤ at + 18) }
{
    if right == 0 {
        return at;
    }
    let e = e as u32;
    put_row(
        out,
        at,
        b"right",
        &[e / size.m, e % size.m, u32::from(right)],
    )
}

// `grant`, cell, the division that made it, the one that it is to, and rights, of the entry e, unless it is 0.
#[tactic(auto, unfolding(crate::specs::Output::grant_line))]
fn put_grant(out: &mut [u8], at: usize, size: Size, e: usize, grant: u16) -> usize
    requires { e ≤ 8191 }
    ensures { (grants : List ℕ) → grant ≡ get_or grants e 0 → at + 50 ≤ length out.old
        → Puts out at (grant_line size.m grants e) result × (result ≤ at + 22) }
{
    if grant == 0 {
        return at;
    }
    let e = e as u32;
    // one remainder and one quotient of the entry, as document 01 writes it
    let grant = u32::from(grant);
    put_row(
        out,
        at,
        b"grant",
        &[e / size.m, e % size.m, grant % 256, grant / 256],
    )
}

// The state after a run: the core, and the rights and grants that are not 0.
pub fn put_state(out: &mut [u8], at: usize, r: Registers, loaded: &Loaded) -> usize
    requires { at + 327746 ≤ length out.old }
    ensures puts { Puts out at (state_lines r loaded.now.tables.m loaded.now.tables.rights.now loaded.now.tables.grants.now) result }
    ensures ends { result ≤ at + 327718 }
{
    let size = loaded.size;
    let core = put_core(out, at, r);
    let rights = put_lines(out, core, loaded.tables.rights, |out, at, e, right| {
        put_right(out, at, size, e, right)
    });
    put_lines(out, rights, loaded.tables.grants, |out, at, e, grant| {
        put_grant(out, at, size, e, grant)
    })
}
