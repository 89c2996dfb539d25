// Protect, invalidate, revalidate, exclusive.
use crate::words::Call::*;
use crate::words::Setting::*;
use crate::words::Start::*;
use crate::words::*;

pub const CASES: &[Case] = &[
    // y part of P, not equal.
    Case(Listing, &[], Do(PROTECT, 4096, 0, 0)),
    Case(Then, &[], Do(PROTECT, 4096, 0, 0)),
    Case(Then, &[], Do(PROTECT, 4096, 1, 0)),
    Case(Listing, &[], Do(PROTECT, 4096, 2, 0)),
    Case(Listing, &[Right(0, 0, 7)], Do(PROTECT, 4096, 7, 0)),
    Case(Then, &[], Do(PROTECT, 4096, 6, 0)),
    Case(Then, &[], Do(PROTECT, 4096, 3, 0)),
    Case(Then, &[], Do(PROTECT, 4096, 4, 0)),
    // "Part of" means every right of one is in the other.
    Case(Listing, &[Right(0, 0, 5)], Do(PROTECT, 4096, 2, 0)),
    // Entry cell × M + division.
    Case(Listing, &[Current(2)], Do(PROTECT, 8192, 0, 0)),
    // P not 0.
    Case(Listing, &[Current(1)], Do(INVALIDATE, 4096, 0, 0)),
    Case(Listing, &[Right(0, 0, 0)], Do(INVALIDATE, 4096, 0, 0)),
    // Nobody else holds a right.
    Case(Listing, &[Right(0, 2, 4)], Do(INVALIDATE, 4096, 0, 0)),
    Case(
        Listing,
        &[Right(1, 0, 1), Current(2)],
        Do(INVALIDATE, 8192, 0, 0),
    ),
    // Reads the rights list only.
    Case(Listing, &[Grant(0, 0, 769)], Do(INVALIDATE, 4096, 0, 0)),
    // Cell not valid.
    Case(Then, &[Current(1)], Do(RECEIVE, 4096, 0, 0)),
    // Revalidate: mark 1.
    Case(Then, &[Current(0)], Do(REVALIDATE, 4096, 0, 0)),
    // A grant stays through invalidate and revalidate.
    Case(Then, &[Current(1)], Do(RECEIVE, 4096, 0, 0)),
    // Value 1 if nobody else holds a right, else 0.
    Case(Then, &[], Do(EXCLUSIVE, 4096, 0, 0)),
    // Nobody else holds a right.
    Case(Then, &[], Do(INVALIDATE, 4096, 0, 0)),
    // Revalidation by the remaining holder alone.
    Case(
        Listing,
        &[Mark(0, 0), Current(1)],
        Do(REVALIDATE, 4096, 0, 0),
    ),
    Case(
        Listing,
        &[Mark(0, 0), Right(0, 0, 0)],
        Do(REVALIDATE, 4096, 0, 0),
    ),
    Case(
        Listing,
        &[Mark(1, 0), Current(2)],
        Do(REVALIDATE, 8192, 0, 0),
    ),
    // For revalidate: cell valid.
    Case(Then, &[], Do(REVALIDATE, 8192, 0, 0)),
    // Revalidate: mark 1.
    Case(Then, &[], Do(FETCH, 8192, 0, 0)),
    // Invalidate: mark 0.
    Case(Then, &[], Do(INVALIDATE, 8192, 0, 0)),
    // Cell not valid.
    Case(Then, &[], Do(INVALIDATE, 8192, 0, 0)),
    // Value 1 if nobody else holds a right, else 0.
    Case(Listing, &[], Do(EXCLUSIVE, 4096, 0, 0)),
    Case(Listing, &[Current(2)], Do(EXCLUSIVE, 8192, 0, 0)),
    Case(Listing, &[Right(0, 1, 1)], Do(EXCLUSIVE, 4096, 0, 0)),
    Case(
        Listing,
        &[Right(1, 0, 1), Current(2)],
        Do(EXCLUSIVE, 8192, 0, 0),
    ),
    // Reads the rights list only.
    Case(Listing, &[Grant(0, 0, 769)], Do(EXCLUSIVE, 4096, 0, 0)),
    // Exclusive needs P not 0.
    Case(Listing, &[Current(1)], Do(EXCLUSIVE, 4096, 0, 0)),
];
