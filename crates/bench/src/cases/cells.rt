// A sound cell, by itself: check 2.
use crate::words::Call::*;
use crate::words::Setting::*;
use crate::words::Start::*;
use crate::words::*;

pub const CASES: &[Case] = &[
    // A cell is sound if: first <= last.
    Case(Listing, &[Last(0, 4095)], Do(LOAD, 4096, 0, 0)),
    Case(Listing, &[Last(0, 4096)], Do(LOAD, 4096, 0, 0)),
    // Offset + last - first < L, in whole numbers.
    Case(Listing, &[Offset(1, 12)], Do(LOAD, 4096, 0, 0)),
    Case(Listing, &[Offset(1, 13)], Do(LOAD, 4096, 0, 0)),
    Case(Listing, &[Offset(1, TOP)], Do(LOAD, 4096, 0, 0)),
    Case(Listing, &[Offset(0, 4294967289)], Do(LOAD, 4096, 0, 0)),
    Case(Listing, &[Last(1, TOP)], Do(LOAD, 4096, 0, 0)),
    Case(Listing, &[L(8)], Do(LOAD, 4096, 0, 0)),
    // Its valid mark is 0 or 1.
    Case(Listing, &[Mark(0, 2)], Do(LOAD, 4096, 0, 0)),
    Case(Listing, &[Mark(1, 2)], Do(LOAD, 4096, 0, 0)),
    Case(Listing, &[Mark(0, 255)], Do(LOAD, 4096, 0, 0)),
    Case(Listing, &[Mark(0, 0)], Do(LOAD, 4096, 0, 0)),
    // Each rights entry is at most 7.
    Case(Listing, &[Right(0, 0, 8)], Do(LOAD, 4096, 0, 0)),
    Case(Listing, &[Right(1, 0, 255)], Do(LOAD, 4096, 0, 0)),
    Case(Listing, &[Right(0, 2, 7)], Do(LOAD, 4096, 0, 0)),
    // Each grant entry is 0, or has rights 1 to 7.
    Case(Listing, &[Grant(0, 0, 1)], Do(LOAD, 4096, 0, 0)),
    Case(Listing, &[Grant(0, 0, 257)], Do(LOAD, 4096, 0, 0)),
    Case(Listing, &[Grant(0, 0, 1793)], Do(LOAD, 4096, 0, 0)),
    Case(Listing, &[Grant(0, 0, 2049)], Do(LOAD, 4096, 0, 0)),
    Case(Listing, &[Grant(1, 0, 65535)], Do(LOAD, 4096, 0, 0)),
    // And a target below M.
    Case(Listing, &[Grant(0, 0, 770)], Do(LOAD, 4096, 0, 0)),
    Case(Listing, &[Grant(0, 0, 771)], Do(LOAD, 4096, 0, 0)),
    Case(Listing, &[Grant(1, 2, 1023)], Do(LOAD, 4096, 0, 0)),
    // That is not the granter.
    Case(Listing, &[Grant(0, 0, 768)], Do(LOAD, 4096, 0, 0)),
    Case(Listing, &[Grant(0, 1, 769)], Do(LOAD, 4096, 0, 0)),
    Case(Listing, &[Grant(0, 1, 768)], Do(LOAD, 4096, 0, 0)),
    Case(Listing, &[Grant(1, 1, 257)], Do(LOAD, 4096, 0, 0)),
    // At most one division holds any right if the mark is 0.
    Case(Listing, &[Mark(0, 0), Right(0, 1, 1)], Do(LOAD, 4096, 0, 0)),
    Case(Listing, &[Mark(1, 0), Right(1, 1, 2)], Do(LOAD, 4096, 0, 0)),
    Case(Listing, &[Mark(0, 0), Right(0, 0, 0)], Do(LOAD, 4096, 0, 0)),
    Case(
        Listing,
        &[Mark(0, 0), Grant(0, 1, 256)],
        Do(LOAD, 4096, 0, 0),
    ),
    Case(Listing, &[Right(0, 1, 1)], Do(LOAD, 4096, 0, 0)),
];
