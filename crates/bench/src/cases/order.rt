// A sound cell and the cell before it: check 2.
use crate::words::Call::*;
use crate::words::Setting::*;
use crate::words::Start::*;
use crate::words::*;

pub const CASES: &[Case] = &[
    // Its first is above the last of the cell before.
    Case(
        Listing,
        &[First(1, 4103), Last(1, 4106)],
        Do(LOAD, 4096, 0, 0),
    ),
    Case(
        Listing,
        &[First(1, 4104), Last(1, 4107)],
        Do(LOAD, 4104, 0, 0),
    ),
    Case(Listing, &[First(1, 0), Last(1, 3)], Do(LOAD, 4096, 0, 0)),
    // Its offset is at least that cell's offset + last - first + 1.
    Case(Listing, &[Offset(1, 7)], Do(LOAD, 4096, 0, 0)),
    Case(Listing, &[Offset(1, 9)], Do(LOAD, 4096, 0, 0)),
    // Cells thus lie in memory in address order.
    Case(Listing, &[Offset(0, 8), Offset(1, 0)], Do(LOAD, 4096, 0, 0)),
    // Except for cell 0.
    Case(Listing, &[First(0, 0), Last(0, 7)], Do(LOAD, 0, 0, 0)),
    // Value: lowest unsound cell.
    Case(Listing, &[Mark(0, 2), Mark(1, 2)], Do(LOAD, 4096, 0, 0)),
    Case(Listing, &[Mark(1, 2), N(3)], Do(LOAD, 4096, 0, 0)),
    // Checks go in this order: 2 before 3.
    Case(Listing, &[Mark(1, 2), Current(3)], Do(LOAD, 4096, 0, 0)),
    // Checks go in this order: 2 before 4.
    Case(Listing, &[Mark(1, 2)], Do(11, 4096, 0, 0)),
];
