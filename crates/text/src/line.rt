// The line of a keyword and numbers that stands at a place of a text.
ghost use Rattle.std.specs.Prelude.{◌≡◌, true, ◌+◌, ◌≤◌, length};
ghost use Rattle.text.specs.Line.{option_of_row, row_of, row_told, zeros5, word_at, fields_at, row_at, row_within};

use crate::number::{number_at, peek};

// A right line: the place after it, and its numbers, 0 past the last. Five are enough for every kind of line, so that
// one reader serves all kinds.
#[derive(Clone, Copy, PartialEq, Eq)]
pub struct Row {
    pub next: usize,
    pub v: [u32; 5],
}

impl Row {
    // `within` of a row that is right.
    pub fn within(self, j: usize, least: u32, limit: u32) -> Option<Row>
        ensures { result ≡ option_of_row (row_within (row_of self) j least limit) }
    {
        within(Some(self), j, least, limit)
    }
}

// The row, where its number j is from least on and below limit; otherwise, and where there is no row or no number j, none. So
// a kind of line is a call of `row_at` with a call of this behind it for each number that has limits.
#[tactic(auto, using(crate::proofs::Lines::within_no_row, crate::proofs::Lines::within_no_entry, crate::proofs::Lines::within_low, crate::proofs::Lines::within_high, crate::proofs::Lines::within_limits))]
pub fn within(row: Option<Row>, j: usize, least: u32, limit: u32) -> Option<Row>
    ensures { result ≡ option_of_row (row_within (row_told row) j least limit) }
{
    let row = row?;
    let x = *row.v.get(j)?;
    if least <= x && x < limit {
        Some(row)
    } else {
        None
    }
}

// Whether a word stands at a place. Where it does the place after it is a `usize`, which `row_at` then computes.
fn word_at(s: &[u8], at: usize, word: &[u8]) -> bool
    ensures value { result ≡ word_at s.now at word.now }
    ensures fits { result ≡ true → at + length word.now ≤ 18446744073709551615 }
{
    s.get(at..).unwrap_or(&[]).starts_with(word)
}

// From a place behind the keyword on: k times a tab and a number, and the line feed.
fn fields_at(s: &[u8], at: usize, k: usize) -> Option<Row>
    requires { k ≤ 5 }
    ensures { result ≡ option_of_row (fields_at s.now k 0 zeros5 at) }
{
    let mut v = [0; 5];
    let mut next = at;
    for x in &mut v[..k] {
        let Some(b'\t') = peek(s, next) else {
            return None;
        };
        let number = number_at(s, next + 1)?;
        *x = number.value;
        next = number.next;
    }
    let Some(b'\n') = peek(s, next) else {
        return None;
    };
    Some(Row { next: next + 1, v })
}

// The line of a keyword and k numbers at a place. A row holds five, so no line of more is right; k may be any
// number, as the contract has it and the wrong program `five_numbers_refused` shows.
#[tactic(auto, using(crate::proofs::Lines::row_too_many, crate::proofs::Lines::row_fields, crate::proofs::Lines::row_no_word))]
pub fn row_at(s: &[u8], at: usize, word: &[u8], k: usize) -> Option<Row>
    ensures { result ≡ option_of_row (row_at s.now at word.now k) }
{
    if 5 < k || !word_at(s, at, word) {
        return None;
    }
    fields_at(s, at + word.len(), k)
}
