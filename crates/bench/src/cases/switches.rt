// Switch.
use crate::words::Call::*;
use crate::words::Setting::*;
use crate::words::Start::*;
use crate::words::*;

pub const CASES: &[Case] = &[
    // Checks go in this order: 8 before 9.
    Case(Listing, &[], Do(SWITCH, 8193, 1, 0)),
    // Checks go in this order: 9 before 12.
    Case(Listing, &[Byte(8, 10)], Do(SWITCH, 8192, 1, 0)),
    // y holds execute.
    Case(Listing, &[Current(2)], Do(SWITCH, 8192, 0, 0)),
    Case(Listing, &[Right(1, 2, 3)], Do(SWITCH, 8192, 2, 0)),
    Case(Listing, &[Right(1, 1, 7)], Do(SWITCH, 8192, 1, 0)),
    // Switching to one's own division is allowed.
    Case(Listing, &[Current(2)], Do(SWITCH, 8192, 2, 0)),
    Case(Then, &[], Do(SWITCH, 8192, 2, 0)),
    // Caller becomes d, current y, place x; d.
    Case(
        Listing,
        &[Current(1), Caller(2), Place(77)],
        Do(SWITCH, 8192, 2, 0),
    ),
    Case(
        Listing,
        &[Current(2), Right(1, 0, 4)],
        Do(SWITCH, 8192, 0, 0),
    ),
    // The entry word is 11 (bytes 11, 0, 0, 0).
    Case(Listing, &[Byte(11, 1)], Do(SWITCH, 8192, 2, 0)),
    Case(Listing, &[Byte(9, 11)], Do(SWITCH, 8192, 2, 0)),
    Case(Listing, &[Byte(8, 0), Byte(11, 11)], Do(SWITCH, 8192, 2, 0)),
    // The word at the address.
    Case(
        Listing,
        &[Last(1, 8199), Byte(12, 11)],
        Do(SWITCH, 8196, 2, 0),
    ),
    Case(Then, &[Byte(12, 10)], Do(SWITCH, 8196, 2, 0)),
];
