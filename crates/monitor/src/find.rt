// The search for the cell that covers an address.
ghost use Rattle.std.specs.Prelude.{◌≡◌, ◌≤◌, count_by, ltb};
ghost use Rattle.monitor.specs.Leaves.{CellsRise, found_in};

// How many cells end below `x`. They are counted with no early way out, and in 32 bits, so that the loop vectorises.
fn ended(last: &[u32], x: u32) -> u32
    requires { count_by (λ end. ltb end x) last.now ≤ 4294967295 }
    ensures { result ≡ count_by (λ end. ltb end x) last.now }
{
    last.iter().map(|end| u32::from(*end < x)).sum()
}

// The cell that covers `x`, in tables whose cells are sound. Cells rise, so it can only be the one after those that end
// below `x`. No search by halving, as `partition_point` is: that is request #105 of document 02,
// and a request is built when its turn comes.
pub fn find(first: &[u32], last: &[u32], x: u32) -> Option<usize>
    requires { CellsRise first.now last.now }
    ensures { result ≡ found_in first.now last.now x }
{
    let c = ended(last, x) as usize;
    if c < first.len() && first[c] <= x {
        Some(c)
    } else {
        None
    }
}
