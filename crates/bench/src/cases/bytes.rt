// Load and store.
use crate::words::Call::*;
use crate::words::Setting::*;
use crate::words::Start::*;
use crate::words::*;

pub const CASES: &[Case] = &[
    // Load needs read.
    Case(Listing, &[Right(0, 0, 2)], Do(LOAD, 4096, 0, 0)),
    Case(Listing, &[Current(2)], Do(LOAD, 8192, 0, 0)),
    // Load: value byte.
    Case(Listing, &[Right(1, 0, 1)], Do(LOAD, 8192, 0, 0)),
    Case(Listing, &[Byte(3, 255)], Do(LOAD, 4099, 0, 0)),
    // Store needs write.
    Case(Listing, &[Right(0, 0, 1)], Do(STORE, 4096, 65, 0)),
    Case(Listing, &[Current(2)], Do(STORE, 8192, 65, 0)),
    Case(Listing, &[Right(0, 0, 2)], Do(STORE, 4096, 65, 0)),
    // Store: byte becomes y.
    Case(Listing, &[], Do(STORE, 4103, 200, 0)),
    Case(Then, &[], Do(LOAD, 4103, 0, 0)),
];
