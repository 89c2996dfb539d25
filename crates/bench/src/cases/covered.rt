// The cell covering the address, and its mark: checks 6 and 7.
use crate::words::Call::*;
use crate::words::Setting::*;
use crate::words::Start::*;
use crate::words::*;

pub const CASES: &[Case] = &[
    // No cell covers the address.
    Case(Listing, &[], Do(LOAD, 0, 0, 0)),
    Case(Listing, &[], Do(LOAD, 4095, 0, 0)),
    Case(Listing, &[], Do(LOAD, 8191, 0, 0)),
    Case(Listing, &[], Do(LOAD, 8196, 0, 0)),
    Case(Listing, &[], Do(LOAD, TOP, 0, 0)),
    // c is the cell covering x.
    Case(Listing, &[], Do(LOAD, 8195, 0, 0)),
    // No cell covers the address.
    Case(Listing, &[], Do(STORE, 9000, 65, 0)),
    Case(Listing, &[], Do(FETCH, 9001, 0, 0)),
    Case(Listing, &[], Do(SWITCH, 9000, 2, 0)),
    Case(Listing, &[], Do(PROTECT, 9000, 1, 0)),
    Case(Listing, &[], Do(GRANT, 9000, 1, 1)),
    Case(Listing, &[], Do(RECEIVE, 9000, 1, 0)),
    Case(Listing, &[], Do(TRANSFER, 9000, 1, 1)),
    Case(Listing, &[], Do(INVALIDATE, 9000, 0, 0)),
    Case(Listing, &[], Do(REVALIDATE, 9000, 0, 0)),
    Case(Listing, &[], Do(EXCLUSIVE, 9000, 0, 0)),
    // Cell not valid.
    Case(Listing, &[Mark(0, 0)], Do(STORE, 4096, 65, 0)),
    Case(Then, &[], Do(FETCH, 4097, 0, 0)),
    Case(Then, &[], Do(SWITCH, 4096, 1, 0)),
    Case(Then, &[], Do(PROTECT, 4096, 3, 0)),
    Case(Then, &[], Do(PROTECT, 4096, 4, 0)),
    Case(Then, &[], Do(GRANT, 4096, 1, 1)),
    Case(Then, &[], Do(RECEIVE, 4096, 1, 0)),
    Case(Then, &[], Do(TRANSFER, 4096, 1, 1)),
    Case(Then, &[], Do(INVALIDATE, 4096, 0, 0)),
    Case(Then, &[], Do(EXCLUSIVE, 4096, 0, 0)),
    Case(Then, &[Current(1)], Do(LOAD, 4096, 0, 0)),
    // For revalidate: cell valid.
    Case(Listing, &[], Do(REVALIDATE, 4096, 0, 0)),
    Case(Listing, &[Current(1)], Do(REVALIDATE, 4096, 0, 0)),
    // Cell not valid.
    Case(Listing, &[Mark(1, 0)], Do(LOAD, 8192, 0, 0)),
    Case(Then, &[], Do(LOAD, 4096, 0, 0)),
];
