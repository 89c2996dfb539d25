// Registers and instruction numbers: checks 3 and 4.
use crate::words::Call::*;
use crate::words::Setting::*;
use crate::words::Start::*;
use crate::words::*;

pub const CASES: &[Case] = &[
    // Current or caller division not below M.
    Case(Listing, &[Current(3)], Do(LOAD, 4096, 0, 0)),
    Case(Listing, &[Caller(3)], Do(LOAD, 4096, 0, 0)),
    Case(Listing, &[Current(TOP)], Do(LOAD, 4096, 0, 0)),
    Case(Listing, &[Caller(TOP)], Do(LOAD, 4096, 0, 0)),
    Case(Listing, &[Current(256)], Do(LOAD, 4096, 0, 0)),
    Case(Listing, &[Current(2), Caller(2)], Do(LOAD, 4096, 0, 0)),
    Case(Listing, &[Place(TOP)], Do(LOAD, 4096, 0, 0)),
    // Instruction number above 10.
    Case(Listing, &[], Do(TOP, 4096, 0, 0)),
    Case(Listing, &[], Do(256, 4096, 0, 0)),
    // Checks go in this order: 3 before 4.
    Case(Listing, &[Caller(3)], Do(11, 4096, 0, 0)),
    // Checks go in this order: 3 before 5.
    Case(Listing, &[Current(3)], Do(LOAD, 4096, 1, 0)),
    // Checks go in this order: 3 before 6.
    Case(Listing, &[Current(3)], Do(LOAD, 9000, 0, 0)),
    // Checks go in this order: 4 before 5.
    Case(Listing, &[], Do(11, 4096, 1, 1)),
    // Checks go in this order: 4 before 6.
    Case(Listing, &[], Do(11, 9000, 0, 0)),
];
