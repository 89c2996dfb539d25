// Read view: every check.
use crate::words::Call::*;
use crate::words::Setting::*;
use crate::words::Start::*;
use crate::words::*;

pub const CASES: &[Case] = &[
    // Read view: same checks with read; on a refusal an empty part.
    Case(Listing, &[M(0)], View(4096, 1)),
    Case(Listing, &[M(33)], View(4096, 1)),
    Case(Listing, &[N(257)], View(4096, 1)),
    Case(Listing, &[L(65537)], View(4096, 1)),
    Case(Listing, &[Longer(List::Grants)], View(4096, 1)),
    Case(Listing, &[Shorter(List::Offsets)], View(4096, 1)),
    Case(Listing, &[Mark(0, 2)], View(4096, 1)),
    Case(Listing, &[Mark(1, 2)], View(4096, 1)),
    Case(Listing, &[Current(3)], View(4096, 1)),
    Case(Listing, &[Caller(3)], View(4096, 1)),
    Case(Listing, &[Current(3)], View(9000, 1)),
    Case(Listing, &[], View(4104, 1)),
    Case(Listing, &[N(0)], View(4096, 1)),
    Case(Listing, &[N(0), L(0)], View(0, 0)),
    Case(Listing, &[Mark(0, 0)], View(4096, 1)),
    Case(Then, &[], View(4096, 9)),
    Case(Listing, &[], View(4096, 9)),
    Case(Listing, &[], View(4103, 2)),
    Case(Listing, &[], View(8192, 5)),
    Case(Listing, &[], View(8192, 4)),
    Case(Listing, &[Right(0, 0, 2)], View(4096, 1)),
    Case(Listing, &[Current(2)], View(8192, 4)),
    Case(Listing, &[Right(1, 0, 1)], View(8192, 4)),
];
