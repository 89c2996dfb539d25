// Transfer.
use crate::words::Call::*;
use crate::words::Setting::*;
use crate::words::Start::*;
use crate::words::*;

pub const CASES: &[Case] = &[
    // As grant, then P becomes 0.
    Case(Listing, &[], Do(TRANSFER, 4096, 1, 3)),
    // P becomes 0.
    Case(Then, &[], Do(LOAD, 4096, 0, 0)),
    // As grant: z part of P.
    Case(Then, &[], Do(TRANSFER, 4096, 2, 1)),
    // Names the current division.
    Case(Then, &[Current(2)], Do(RECEIVE, 4096, 0, 0)),
    // Its rights join P; y's grant entry becomes 0.
    Case(Then, &[Current(1)], Do(RECEIVE, 4096, 0, 0)),
    // Its rights join P.
    Case(Then, &[], Do(LOAD, 4096, 0, 0)),
    // No standing grant.
    Case(Then, &[], Do(RECEIVE, 4096, 0, 0)),
    // Then P becomes 0.
    Case(Listing, &[], Do(TRANSFER, 4096, 2, 1)),
    // Replacing any.
    Case(Listing, &[Grant(0, 0, 258)], Do(TRANSFER, 4096, 1, 3)),
    // Registers and lent lists come back unchanged.
    Case(Listing, &[Grant(0, 0, 258)], Do(TRANSFER, 4096, 1, 4)),
    // Entry cell × M + division.
    Case(Listing, &[Current(2)], Do(TRANSFER, 8192, 0, 4)),
    // Its rights join P; y's grant entry becomes 0.
    Case(Then, &[Current(0)], Do(RECEIVE, 8192, 2, 0)),
    // y holds execute.
    Case(Then, &[], Do(SWITCH, 8192, 0, 0)),
];
