// The cell lines of a listing, into lists side by side, as C lends them.
ghost use Rattle.std.specs.Prelude.{◌≡◌, ◌≤◌, length, take};
ghost use Rattle.listing.specs.Listing.{cells_at};

use crate::lines::{Passed, cell_row};

// The cell lines from a place on. The fronts of the lists are filled, an entry to a line.
#[tactic(auto, using(crate::proofs::Loops::cells_stop, crate::proofs::Loops::cells_full, crate::proofs::Rows::mark_below, text::proofs::Lines::found_row))]
pub fn cells_at(
    s: &[u8],
    at: usize,
    first: &mut [u32],
    last: &mut [u32],
    offset: &mut [u32],
    marks: &mut [u8],
) -> Passed
    requires { (length first.old ≡ 256) × (length last.old ≡ 256) × (length offset.old ≡ 256) × (length marks.old ≡ 256) }
    ensures value { cells_at s.now at
        ≡ record {
          next = result.next;
          first = take result.count first.new;
          last = take result.count last.new;
          offset = take result.count offset.new;
          marks = take result.count marks.new;
        } }
    ensures few { result.count ≤ 256 }
{
    let mut next = at;
    for n in 0..256 {
        let Some(row) = cell_row(s, next) else {
            return Passed { count: n, next };
        };
        first[n] = row.v[0];
        last[n] = row.v[1];
        offset[n] = row.v[2];
        marks[n] = row.v[3] as u8;
        next = row.next;
    }
    Passed { count: 256, next }
}
