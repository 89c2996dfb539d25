// Reads and writes text of decimal numbers: lines of a keyword and up to five numbers, and the fields and words that
// they are made of. A place is a parameter beside its text or buffer, as `peek`, `number_at`, `row_at`, `put_word`, `put_number` and
// `put_row` promise it to their callers. No public function has a `requires`: each contract is an equation for every text, place and buffer.
#![tactic(auto)]

mod line;
mod number;
mod put;
mod write;

pub use line::{Row, row_at, within};
pub use number::{Number, number_at, peek};
pub use put::{put_number, put_row, put_word};
