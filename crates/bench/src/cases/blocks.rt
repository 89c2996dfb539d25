// Block write: every check.
use crate::words::Call::*;
use crate::words::Setting::*;
use crate::words::Start::*;
use crate::words::*;

pub const CASES: &[Case] = &[
    // Block write: checks 1, 2, 3, 6, 7, 8, 9 (write).
    Case(Listing, &[M(0)], Write(4096, 1)),
    Case(Listing, &[M(33)], Write(4096, 1)),
    Case(Listing, &[N(257)], Write(4096, 1)),
    Case(Listing, &[L(65537)], Write(4096, 1)),
    Case(Listing, &[Shorter(List::Rights)], Write(4096, 1)),
    Case(Listing, &[Longer(List::Lasts)], Write(4096, 1)),
    Case(Listing, &[Mark(0, 2)], Write(4096, 1)),
    Case(Listing, &[Mark(1, 2)], Write(4096, 1)),
    Case(Listing, &[Current(3)], Write(4096, 1)),
    Case(Listing, &[Caller(3)], Write(4096, 1)),
    Case(Listing, &[Current(3)], Write(9000, 1)),
    Case(Listing, &[], Write(4104, 1)),
    Case(Listing, &[N(0)], Write(4096, 1)),
    Case(Listing, &[N(0), L(0)], Write(0, 0)),
    Case(Listing, &[Mark(0, 0)], Write(4096, 1)),
    Case(Then, &[], Write(4096, 9)),
    Case(Listing, &[], Write(4096, 9)),
    Case(Listing, &[], Write(4103, 2)),
    Case(Listing, &[], Write(8192, 5)),
    Case(Listing, &[], Write(8192, 4)),
    Case(Listing, &[Right(0, 0, 1)], Write(4096, 1)),
    Case(Listing, &[Current(2)], Write(8192, 4)),
    Case(Listing, &[Right(0, 0, 2)], Write(4096, 1)),
];
