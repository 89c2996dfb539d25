// The cases, in a table for each subject. A case is added at the end of its table.
pub mod blocks;
pub mod bytes;
pub mod cells;
pub mod covered;
pub mod document;
pub mod gifts;
pub mod holdings;
pub mod largest;
pub mod numbers;
pub mod operands;
pub mod order;
pub mod parts;
pub mod sizes;
pub mod switches;
pub mod transfers;
pub mod views;
pub mod words;
pub mod writes;

use crate::words::Case;

// Every table, in the order of docs/BENCH.md. This is a function, since one constant of all the cases is too large to be checked.
pub fn tables() -> [&'static [Case]; 18] {
    [
        document::CASES,
        sizes::CASES,
        largest::CASES,
        cells::CASES,
        order::CASES,
        numbers::CASES,
        operands::CASES,
        covered::CASES,
        bytes::CASES,
        words::CASES,
        switches::CASES,
        holdings::CASES,
        gifts::CASES,
        transfers::CASES,
        blocks::CASES,
        writes::CASES,
        views::CASES,
        parts::CASES,
    ]
}
