// The table check: bounds, lengths and soundness of everything that is lent, before any call looks further.
// Its one public function has no `requires`. A row of entries is passed with no early exit and with its tests
// joined by `&`, or counted, so that the loops vectorise; the way out is at a cell.
#![tactic(auto)]

ghost use Rattle.std.specs.Prelude.{◌≡◌, true, false, not, ◌&&◌, ◌||◌, ◌+◌, ◌/◌, ◌≤◌, ◌<◌, length, get_or, leb, ltb, eqb, count_by};
ghost use Rattle.std.specs.List.{list_all};
ghost use Rattle.rules.specs.Below.{every, lowest};
ghost use Rattle.rules.specs.Lent.{lent};
ghost use Rattle.rules.specs.Numbers.{in_bounds, first_of, last_of, offset_of, N, L};
ghost use Rattle.rules.specs.Sound.{sound_grant, after_cell_before, sound_cell, lowest_unsound};
ghost use Rattle.rules.specs.Refusals.{well_sized, answer_of};
ghost use Rattle.tables.specs.Check.{Within, excess, cell_below, tables_checked};

use rules::{Refusal, Tables};

// Whether the entry `grant` of the granter `d` is sound among `m` divisions. Target and rights come by one remainder and one
// quotient, which the loop over a row makes with vectors of the numbers that C lends.
#[tactic(auto, unfolding(rules::specs::Sound::sound_grant))]
fn sound_grant(m: u16, d: u16, grant: u16) -> bool
    ensures { result ≡ sound_grant m d grant }
{
    let target = grant % 256;
    let rights = grant / 256;
    (grant == 0) | ((1 <= rights) & (rights <= 7) & (target < m) & (target != d))
}

// Whether every entry of a row of grants, which begins with division 0's, is sound. A `for`, as in `count_holders`: by
// `fold` and `sum` the check of full tables takes 6 percent longer. That a row has at most 32 entries is a clause of four functions,
// and no type: a row is a slice of one list and of another, for the time of a call.
fn sound_grants(m: u16, row: &[u16]) -> bool
    requires { length row.now ≤ 32 }
    ensures { result ≡ every (λ d. sound_grant m d (get_or row.now d 0)) (length row.now) }
{
    let mut ok = true;
    for (d, grant) in row.iter().enumerate() {
        ok = ok & sound_grant(m, d as u16, *grant);
    }
    ok
}

// The same of a cell's row. 32 divisions are a case of their own: the compiler then knows how long a row is, and unrolls
// it. Without this the check of full tables takes nearly half as long again.
fn sound_offers(row: &[u16]) -> bool
    requires { length row.now ≤ 32 }
    ensures { result ≡ every (λ d. sound_grant (length row.now) d (get_or row.now d 0)) (length row.now) }
{
    if row.len() == 32 {
        sound_grants(32, row)
    } else {
        sound_grants(row.len() as u16, row)
    }
}

// Whether no entry of a list of rights is above 7.
fn sound_rights(rights: &[u8]) -> bool
    ensures { result ≡ list_all (λ right. leb right 7) rights.now }
{
    rights.iter().fold(true, |ok, right| ok & (*right <= 7))
}

// How many entries of a row of rights are not 0. Counted in bytes, so that a vector holds as many counts as it can: by
// `filter` and `count`, in a wider number, the check of full tables takes twice as long.
fn count_holders(row: &[u8]) -> u8
    requires { length row.now ≤ 32 }
    ensures { result ≡ count_by (λ right. ltb 0 right) row.now }
{
    let mut n: u8 = 0;
    for right in row {
        if 0 < *right {
            n += 1;
        }
    }
    n
}

// Whether at most one entry of a row of rights is not 0, where the mark is 0.
fn sound_holders(mark: u8, row: &[u8]) -> bool
    requires { length row.now ≤ 32 }
    ensures { result ≡ (not (eqb mark 0) || leb (count_by (λ right. ltb 0 right) row.now) 1) }
{
    mark != 0 || count_holders(row) <= 1
}

// Whether cell `c`'s first is at most its last, and its bytes lie within the memory.
fn sound_range(tables: Tables, memory: &[u8], c: usize) -> bool
    requires { (c < length tables.first.now) × (c < length tables.last.now) × (c < length tables.offset.now) × (length memory.now ≤ 65536) }
    ensures { let t = lent tables.entry memory.now in
        result ≡ (leb (first_of t c) (last_of t c) && ltb (offset_of t c + last_of t c) (L t + first_of t c)) }
{
    let first = tables.first[c] as usize;
    let last = tables.last[c] as usize;
    let offset = tables.offset[c] as usize;
    (first <= last) & (offset + last < memory.len() + first)
}

// Whether cell `c`, but for cell 0, lies above the cell before it, in addresses and in memory.
#[tactic(auto, using(crate::proofs::Laws::first_cell, crate::proofs::Laws::later_cell))]
fn sound_order(tables: Tables, c: usize) -> bool
    requires { (c < length tables.first.now) × ((c < length tables.last.now) × (c < length tables.offset.now)) }
    ensures { result ≡ after_cell_before tables.entry.first.now tables.entry.last.now tables.entry.offset.now c }
{
    if c == 0 {
        return true;
    }
    let first = tables.first[c - 1] as usize;
    let last = tables.last[c - 1] as usize;
    let offset = tables.offset[c - 1] as usize;
    (last < tables.first[c] as usize) & (offset + last + 1 <= tables.offset[c] as usize + first)
}

// Whether cell `c`, on which no right is above 7, is sound.
fn sound_cell(tables: Tables, memory: &[u8], c: usize) -> bool
    requires within { Within (lent tables memory.now) c }
    requires moderate { excess tables.m tables.rights.now c ≡ false }
    ensures { result ≡ sound_cell (lent tables.entry memory.now) c }
{
    let start = c * tables.m;
    let end = start + tables.m;
    let mark = tables.marks[c];
    sound_range(tables, memory, c)
        & (mark <= 1)
        & sound_offers(&tables.grants[start..end])
        & sound_holders(mark, &tables.rights[start..end])
        & sound_order(tables, c)
}

// The lowest cell on which a right is above 7. The whole list is passed first: as a rule there is none.
#[tactic(auto, using(crate::proofs::Laws::no_excess))]
fn lowest_excess(m: usize, rights: &[u8]) -> Option<usize>
    requires { 1 ≤ m }
    ensures { let n = length rights.now / m in result ≡ cell_below n (lowest (excess m rights.now) n) }
{
    if sound_rights(rights) {
        None
    } else {
        rights.chunks_exact(m).position(|row| !sound_rights(row))
    }
}

// The lowest unsound cell. It is at most the lowest on which a right is above 7. By `find` over the cells the check of full
// tables takes 5 percent longer.
fn lowest_unsound(tables: Tables, memory: &[u8]) -> Option<usize>
    requires { well_sized (lent tables memory.now) ≡ true }
    ensures { let t = lent tables.entry memory.now in result ≡ cell_below (N t) (lowest_unsound t) }
{
    let excess = lowest_excess(tables.m, tables.rights);
    let end = excess.unwrap_or(tables.first.len());
    for c in 0..end {
        if !sound_cell(tables, memory, c) {
            return Some(c);
        }
    }
    excess
}

// Whether M, N and L are in their bounds.
#[tactic(auto, unfolding(rules::specs::Numbers::in_bounds))]
fn in_bounds(m: usize, n: usize, l: usize) -> bool
    ensures { result ≡ in_bounds m n l }
{
    (1 <= m) & (m <= 32) & (n <= 256) & (l <= 65536)
}

// Whether M, N and L are in their bounds and every list has its length. The bounds go first: N × M could wrap.
#[tactic(auto, unfolding(rules::specs::Refusals::well_sized, rules::specs::Numbers::right_lengths))]
fn well_sized(tables: Tables, memory: &[u8]) -> bool
    ensures { result ≡ well_sized (lent tables.entry memory.now) }
{
    let n = tables.first.len();
    if in_bounds(tables.m, n, memory.len()) {
        let entries = n * tables.m;
        (tables.last.len() == n)
            & (tables.offset.len() == n)
            & (tables.marks.len() == n)
            & (tables.rights.len() == entries)
            & (tables.grants.len() == entries)
    } else {
        false
    }
}

// Checks 1 and 2 on anything that can be lent: refused with 1 unless M, N and L are in their bounds and the lists have
// their lengths, and with 2 and the lowest unsound cell unless the tables are sound.
#[tactic(auto, using(crate::proofs::Laws::checked_outside, crate::proofs::Laws::checked_sound, crate::proofs::Laws::checked_unsound, crate::proofs::Laws::found_small))]
pub fn check(tables: Tables, memory: &[u8]) -> Result<(), Refusal>
    ensures { answer_of result ≡ tables_checked (lent tables.entry memory.now) }
{
    if !well_sized(tables, memory) {
        return Err(Refusal::OutOfBounds);
    }
    match lowest_unsound(tables, memory) {
        None => Ok(()),
        Some(cell) => Err(Refusal::Unsound(cell as u32)),
    }
}
