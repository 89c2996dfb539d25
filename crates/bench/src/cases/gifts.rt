// Grant and receive.
use crate::words::Call::*;
use crate::words::Setting::*;
use crate::words::Start::*;
use crate::words::*;

pub const CASES: &[Case] = &[
    // d's grant entry becomes (y, z).
    Case(Listing, &[], Do(GRANT, 4096, 1, 1)),
    // Replacing any.
    Case(Then, &[], Do(GRANT, 4096, 2, 3)),
    // Names the current division.
    Case(Then, &[Current(1)], Do(RECEIVE, 4096, 0, 0)),
    // Its rights join P; y's grant entry becomes 0.
    Case(Then, &[Current(2)], Do(RECEIVE, 4096, 0, 0)),
    // No standing grant.
    Case(Then, &[], Do(RECEIVE, 4096, 0, 0)),
    // Its rights join P.
    Case(Then, &[], Do(LOAD, 4096, 0, 0)),
    // z part of P.
    Case(Listing, &[], Do(GRANT, 4096, 1, 4)),
    Case(Listing, &[Current(1)], Do(GRANT, 4096, 2, 1)),
    Case(Listing, &[], Do(GRANT, 8192, 1, 4)),
    // Its rights join P.
    Case(
        Listing,
        &[Right(0, 1, 4), Grant(0, 0, 257), Current(1)],
        Do(RECEIVE, 4096, 0, 0),
    ),
    // y's grant entry becomes 0.
    Case(
        Listing,
        &[Right(0, 1, 3), Grant(0, 0, 257), Current(1)],
        Do(RECEIVE, 4096, 0, 0),
    ),
    // Takes all that was granted.
    Case(
        Listing,
        &[Grant(0, 0, 1793), Current(1)],
        Do(RECEIVE, 4096, 0, 0),
    ),
    // A grant entry is 0 for none.
    Case(Listing, &[], Do(RECEIVE, 4096, 1, 0)),
    // On this cell.
    Case(
        Listing,
        &[Grant(0, 0, 257), Current(1)],
        Do(RECEIVE, 8192, 0, 0),
    ),
    // From the named source.
    Case(Then, &[], Do(RECEIVE, 4096, 2, 0)),
    Case(Then, &[], Do(RECEIVE, 4096, 0, 0)),
    // A receive names only its source.
    Case(
        Listing,
        &[Grant(0, 0, 257), Grant(0, 2, 513), Current(1)],
        Do(RECEIVE, 4096, 2, 0),
    ),
    Case(Then, &[], Do(RECEIVE, 4096, 0, 0)),
    // A grant stays after its maker gives up the right.
    Case(Listing, &[Grant(0, 0, 257)], Do(PROTECT, 4096, 0, 0)),
    Case(Then, &[Current(1)], Do(RECEIVE, 4096, 0, 0)),
];
