// The lines of a listing, kind by kind: the keyword, how many numbers, and their limits. Each kind is a function of one line, as
// document 01 has a line for it: a table of these constants would need a reader for the limits that are M, N or L. A text and a place
// in it are two parameters, as `text` takes them.
ghost use Rattle.std.specs.Prelude.{◌≡◌};
ghost use Rattle.text.specs.Line.{option_of_row};
ghost use Rattle.listing.specs.Lines.{head_row, size_row, cell_row, right_row, grant_row, byte_row, core_row, do_row};

use text::{Row, row_at};

// How many lines of a kind there are, and the place after them.
#[derive(Clone, Copy)]
pub struct Passed {
    pub count: usize,
    pub next: usize,
}

#[tactic(auto, using(text::proofs::Lines::within_no_row, text::proofs::Lines::found_row), unfolding(crate::specs::Lines::head_row))]
pub fn head_row(s: &[u8], at: usize) -> Option<Row>
    ensures { result ≡ option_of_row (head_row s.now at) }
{
    row_at(s, at, b"cells", 1)?.within(0, 1, 2)
}

#[tactic(auto, using(text::proofs::Lines::within_no_row, text::proofs::Lines::found_row), unfolding(crate::specs::Lines::size_row))]
pub fn size_row(s: &[u8], at: usize) -> Option<Row>
    ensures { result ≡ option_of_row (size_row s.now at) }
{
    row_at(s, at, b"size", 2)?
        .within(0, 1, 33)?
        .within(1, 0, 65537)
}

#[tactic(auto, using(text::proofs::Lines::within_no_row, text::proofs::Lines::found_row), unfolding(crate::specs::Lines::cell_row))]
pub fn cell_row(s: &[u8], at: usize) -> Option<Row>
    ensures { result ≡ option_of_row (cell_row s.now at) }
{
    row_at(s, at, b"cell", 4)?.within(3, 0, 2)
}

// Of n cells and m divisions.
#[tactic(auto, using(text::proofs::Lines::within_no_row, text::proofs::Lines::found_row), unfolding(crate::specs::Lines::right_row))]
pub fn right_row(s: &[u8], at: usize, n: u32, m: u32) -> Option<Row>
    ensures { result ≡ option_of_row (right_row n m s.now at) }
{
    row_at(s, at, b"right", 3)?
        .within(0, 0, n)?
        .within(1, 0, m)?
        .within(2, 1, 8)
}

#[tactic(auto, using(text::proofs::Lines::within_no_row, text::proofs::Lines::found_row), unfolding(crate::specs::Lines::grant_row))]
pub fn grant_row(s: &[u8], at: usize, n: u32, m: u32) -> Option<Row>
    ensures { result ≡ option_of_row (grant_row n m s.now at) }
{
    row_at(s, at, b"grant", 4)?
        .within(0, 0, n)?
        .within(1, 0, m)?
        .within(2, 0, m)?
        .within(3, 1, 8)
}

// In a memory of l bytes.
#[tactic(auto, using(text::proofs::Lines::within_no_row, text::proofs::Lines::found_row), unfolding(crate::specs::Lines::byte_row))]
pub fn byte_row(s: &[u8], at: usize, l: u32) -> Option<Row>
    ensures { result ≡ option_of_row (byte_row l s.now at) }
{
    row_at(s, at, b"byte", 2)?
        .within(0, 0, l)?
        .within(1, 1, 256)
}

#[tactic(auto, unfolding(crate::specs::Lines::core_row))]
pub fn core_row(s: &[u8], at: usize) -> Option<Row>
    ensures { result ≡ option_of_row (core_row s.now at) }
{
    row_at(s, at, b"core", 3)
}

#[tactic(auto, unfolding(crate::specs::Lines::do_row))]
pub fn do_row(s: &[u8], at: usize) -> Option<Row>
    ensures { result ≡ option_of_row (do_row s.now at) }
{
    row_at(s, at, b"do", 4)
}
