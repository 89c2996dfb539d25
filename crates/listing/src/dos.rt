// The do lines of a listing.
ghost use Rattle.std.specs.Prelude.{◌≡◌, ◌*◌, ◌≤◌, length, take};
ghost use Rattle.listing.specs.Listing.{dos_at};

use crate::bounds::ShortText;
use crate::lines::{Passed, do_row};

// The do lines from a place on, four numbers each to the front of the list. A line has at least 11 bytes, so that a text of
// 65,536 has no more than 5,957.
#[tactic(auto, using(crate::proofs::Loops::do_room, crate::proofs::Loops::dos_stop, crate::proofs::Loops::dos_full))]
pub fn dos_at(s: ShortText, at: usize, list: &mut [u32]) -> Passed
    requires { length list.old ≡ 23828 }
    ensures value { dos_at s.entry.bytes.now at
        ≡ record { count = result.count; next = result.next; numbers = take (4 * result.count) list.new } }
    ensures few { result.count ≤ 5957 }
{
    let mut next = at;
    for n in 0..s.bytes.len() {
        let Some(row) = do_row(s.bytes, next) else {
            return Passed { count: n, next };
        };
        let k = 4 * n;
        list[k..k + 4].copy_from_slice(&row.v[..4]);
        next = row.next;
    }
    Passed {
        count: s.bytes.len(),
        next,
    }
}
