// Bounds and lengths: check 1.
use crate::words::Call::*;
use crate::words::Setting::*;
use crate::words::Start::*;
use crate::words::*;

pub const CASES: &[Case] = &[
    // Divisions M: 1 to 32.
    Case(Listing, &[M(0)], Do(LOAD, 4096, 0, 0)),
    Case(Listing, &[M(1)], Do(LOAD, 4096, 0, 0)),
    Case(Listing, &[M(32)], Do(LOAD, 4096, 0, 0)),
    Case(Listing, &[M(33)], Do(LOAD, 4096, 0, 0)),
    Case(Listing, &[M(TOP)], Do(LOAD, 4096, 0, 0)),
    // Cells N: 0 to 256.
    Case(Listing, &[N(0)], Do(LOAD, 4096, 0, 0)),
    // N is the length of first.
    Case(Listing, &[N(1)], Do(LOAD, 8192, 0, 0)),
    // Cells N: 0 to 256.
    Case(Listing, &[N(256)], Do(LOAD, 4096, 0, 0)),
    Case(Listing, &[N(257)], Do(LOAD, 4096, 0, 0)),
    // Memory L: 0 to 65,536 bytes.
    Case(Listing, &[L(0)], Do(LOAD, 4096, 0, 0)),
    Case(Listing, &[L(0), N(0)], Do(LOAD, 4096, 0, 0)),
    Case(Listing, &[L(65536)], Do(LOAD, 4096, 0, 0)),
    Case(Listing, &[L(65537)], Do(LOAD, 4096, 0, 0)),
    // A list of the wrong length.
    Case(Listing, &[Shorter(List::Lasts)], Do(LOAD, 4096, 0, 0)),
    Case(Listing, &[Longer(List::Lasts)], Do(LOAD, 4096, 0, 0)),
    Case(Listing, &[Shorter(List::Offsets)], Do(LOAD, 4096, 0, 0)),
    Case(Listing, &[Longer(List::Offsets)], Do(LOAD, 4096, 0, 0)),
    Case(Listing, &[Shorter(List::Marks)], Do(LOAD, 4096, 0, 0)),
    Case(Listing, &[Longer(List::Marks)], Do(LOAD, 4096, 0, 0)),
    Case(Listing, &[Shorter(List::Rights)], Do(LOAD, 4096, 0, 0)),
    Case(Listing, &[Longer(List::Rights)], Do(LOAD, 4096, 0, 0)),
    Case(Listing, &[Shorter(List::Grants)], Do(LOAD, 4096, 0, 0)),
    Case(Listing, &[Longer(List::Grants)], Do(LOAD, 4096, 0, 0)),
    // Checks go in this order: 1 before 2.
    Case(Listing, &[Mark(1, 2), M(33)], Do(LOAD, 4096, 0, 0)),
    // M, N or L outside its bounds.
    Case(Listing, &[M(33), N(257), L(65537)], Do(LOAD, 4096, 0, 0)),
];
