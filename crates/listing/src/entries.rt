// The right, grant and byte lines of a listing: each names an entry of a list, in strictly rising order, and its value.
ghost use Rattle.std.specs.Prelude.{ℕ, ◌≡◌, ◌≤◌, ◌<◌, length, map};
ghost use Rattle.listing.specs.Lines.{Entry as Line, right_at, grant_at, byte_at, option_of_entry};
ghost use Rattle.listing.specs.Listing.{entries_at};
ghost use Rattle.listing.specs.Reading.{Reads, FilledAs};

use crate::bounds::Size;
use crate::lines::{Passed, byte_row, grant_row, right_row};

// What a line names.
#[derive(Clone, Copy)]
pub struct Entry<T> {
    pub next: usize,
    pub key: usize,
    pub value: T,
}

// A right line, of n cells. The lines are a function each, as document 01 has them: what is alike in them is `fill`'s.
#[tactic(auto, using(text::proofs::Lines::no_row, text::proofs::Lines::found_row, crate::proofs::Rows::rights_below), unfolding(crate::specs::Lines::right_at))]
pub fn right_at(s: &[u8], at: usize, n: u32, size: Size) -> Option<Entry<u8>>
    requires { n ≤ 256 }
    ensures { result ≡ option_of_entry (right_at n size.m s.now at) }
{
    let row = right_row(s, at, n, size.m)?;
    Some(Entry {
        next: row.next,
        key: row.v[0] as usize * size.m as usize + row.v[1] as usize,
        value: row.v[2] as u8,
    })
}

#[tactic(auto, using(text::proofs::Lines::no_row, text::proofs::Lines::found_row, crate::proofs::Rows::grant_below, crate::proofs::Rows::target_most), unfolding(crate::specs::Lines::grant_at))]
pub fn grant_at(s: &[u8], at: usize, n: u32, size: Size) -> Option<Entry<u16>>
    requires { n ≤ 256 }
    ensures { result ≡ option_of_entry (grant_at n size.m s.now at) }
{
    let row = grant_row(s, at, n, size.m)?;
    // the entry is one sum, as document 01 writes it
    Some(Entry {
        next: row.next,
        key: row.v[0] as usize * size.m as usize + row.v[1] as usize,
        value: (row.v[2] + 256 * row.v[3]) as u16,
    })
}

#[tactic(auto, using(text::proofs::Lines::no_row, text::proofs::Lines::found_row, crate::proofs::Rows::byte_below), unfolding(crate::specs::Lines::byte_at))]
pub fn byte_at(s: &[u8], at: usize, size: Size) -> Option<Entry<u8>>
    ensures { result ≡ option_of_entry (byte_at size.l s.now at) }
{
    let row = byte_row(s, at, size.l)?;
    Some(Entry {
        next: row.next,
        key: row.v[0] as usize,
        value: row.v[1] as u8,
    })
}

// The lines from a place on that `line` reads, at most so many, as long as they rise; and their values in the list. `number`
// tells what a value is in the words of the listing.
pub fn fill<T: Copy, F: Fn(usize) -> Option<Entry<T>>>(
    line: F,
    most: usize,
    at: usize,
    list: &mut [T],
) -> Passed
    requires callable { F.IsAlwaysCallable line }
    requires inside { (at : ℕ) (e : _) → F.post line at (Some e) → e.key < length list.old }
    ensures filled { (number : T → ℕ) (names : ℕ → Line) → Reads (F.post line) number names
        → FilledAs (entries_at names most at (map number list.old)) result (map number list.new) }
    ensures few { result.count ≤ most }
{
    let mut next = at;
    let mut least = 0;
    for count in 0..most {
        match line(next) {
            Some(entry) if least <= entry.key => {
                list[entry.key] = entry.value;
                least = entry.key + 1;
                next = entry.next;
            }
            _ => return Passed { count, next },
        }
    }
    Passed { count: most, next }
}
