// Operands: check 5.
use crate::words::Call::*;
use crate::words::Setting::*;
use crate::words::Start::*;
use crate::words::*;

pub const CASES: &[Case] = &[
    // An unused operand not 0.
    Case(Listing, &[], Do(LOAD, 4096, TOP, 0)),
    Case(Listing, &[], Do(LOAD, 4096, 0, 1)),
    // Store: y byte 0..255.
    Case(Listing, &[], Do(STORE, 4096, 255, 0)),
    Case(Listing, &[], Do(STORE, 4096, 0, 0)),
    Case(Listing, &[], Do(STORE, 4096, TOP, 0)),
    // An unused operand not 0.
    Case(Listing, &[], Do(STORE, 4096, 65, 1)),
    // Checks go in this order: 5 before 6.
    Case(Listing, &[], Do(STORE, 9000, 256, 0)),
    // An unused operand not 0.
    Case(Listing, &[Current(2)], Do(FETCH, 8192, 1, 0)),
    Case(Listing, &[Current(2)], Do(FETCH, 8192, 0, 1)),
    // Switch: y division < M.
    Case(Listing, &[], Do(SWITCH, 8192, 3, 0)),
    Case(Listing, &[], Do(SWITCH, 8192, 258, 0)),
    Case(Listing, &[], Do(SWITCH, 8192, TOP, 0)),
    // An unused operand not 0.
    Case(Listing, &[], Do(SWITCH, 8192, 2, 1)),
    // Protect: y rights 0..7.
    Case(Listing, &[], Do(PROTECT, 4096, 7, 0)),
    Case(Listing, &[], Do(PROTECT, 4096, 256, 0)),
    Case(Listing, &[], Do(PROTECT, 4096, TOP, 0)),
    // An unused operand not 0.
    Case(Listing, &[], Do(PROTECT, 4096, 1, 1)),
    // Grant: y division < M, not d.
    Case(Listing, &[], Do(GRANT, 4096, 3, 1)),
    Case(Listing, &[], Do(GRANT, 4096, TOP, 1)),
    Case(Listing, &[], Do(GRANT, 4096, 0, 1)),
    Case(Listing, &[Current(2)], Do(GRANT, 8192, 2, 4)),
    Case(Listing, &[Current(2)], Do(GRANT, 8192, 0, 4)),
    // Grant: z rights 1..7.
    Case(Listing, &[], Do(GRANT, 4096, 1, 0)),
    Case(Listing, &[], Do(GRANT, 4096, 1, 8)),
    Case(Listing, &[], Do(GRANT, 4096, 1, 257)),
    Case(Listing, &[], Do(GRANT, 4096, 1, 7)),
    // Receive: y division < M, not d.
    Case(Listing, &[], Do(RECEIVE, 4096, 3, 0)),
    Case(Listing, &[], Do(RECEIVE, 4096, TOP, 0)),
    Case(Listing, &[], Do(RECEIVE, 4096, 0, 0)),
    // An unused operand not 0.
    Case(Listing, &[], Do(RECEIVE, 4096, 1, 1)),
    // Transfer: as grant.
    Case(Listing, &[], Do(TRANSFER, 4096, 3, 1)),
    Case(Listing, &[], Do(TRANSFER, 4096, 0, 1)),
    Case(Listing, &[], Do(TRANSFER, 4096, 1, 0)),
    Case(Listing, &[], Do(TRANSFER, 4096, 1, 8)),
    // An unused operand not 0.
    Case(Listing, &[], Do(INVALIDATE, 4096, 1, 0)),
    Case(Listing, &[], Do(INVALIDATE, 4096, 0, 1)),
    Case(Listing, &[], Do(REVALIDATE, 4096, 1, 0)),
    Case(Listing, &[], Do(REVALIDATE, 4096, 0, 1)),
    Case(Listing, &[], Do(EXCLUSIVE, 4096, 1, 0)),
    Case(Listing, &[], Do(EXCLUSIVE, 4096, 0, 1)),
];
