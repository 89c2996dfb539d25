// The bench cases of document 01, and the `do` lines of its listing.
use crate::words::Call::*;
use crate::words::Setting::*;
use crate::words::Start::*;
use crate::words::*;

pub const CASES: &[Case] = &[
    // Load 4096: 0, value 0.
    Case(Listing, &[], Do(LOAD, 4096, 0, 0)),
    // Load 4103: 0.
    Case(Listing, &[], Do(LOAD, 4103, 0, 0)),
    // Load 4104: 6.
    Case(Listing, &[], Do(LOAD, 4104, 0, 0)),
    // Load 8192: 9.
    Case(Listing, &[], Do(LOAD, 8192, 0, 0)),
    // Load 4096 with y 1: 5.
    Case(Listing, &[], Do(LOAD, 4096, 1, 0)),
    // Load 9000 with y 1: 5.
    Case(Listing, &[], Do(LOAD, 9000, 1, 0)),
    // Store 4096, 256: 5.
    Case(Listing, &[], Do(STORE, 4096, 256, 0)),
    // Switch 8192 to 2: 0, value 0.
    Case(Listing, &[], Do(SWITCH, 8192, 2, 0)),
    // At 8193: 8.
    Case(Listing, &[], Do(SWITCH, 8193, 2, 0)),
    // 8192 to 1: 9.
    Case(Listing, &[], Do(SWITCH, 8192, 1, 0)),
    // With memory byte 8 being 10, 8192 to 2: 12.
    Case(Listing, &[Byte(8, 10)], Do(SWITCH, 8192, 2, 0)),
    // Protect 4096 to 1: 0, value 1.
    Case(Listing, &[], Do(PROTECT, 4096, 1, 0)),
    // To 3: 13.
    Case(Listing, &[], Do(PROTECT, 4096, 3, 0)),
    // To 4: 9.
    Case(Listing, &[], Do(PROTECT, 4096, 4, 0)),
    // To 8: 5.
    Case(Listing, &[], Do(PROTECT, 4096, 8, 0)),
    // Transfer 4096 to 2, rights 7: 9, all as before.
    Case(Listing, &[], Do(TRANSFER, 4096, 2, 7)),
    // With current 1, receive 4096 from 0: 10.
    Case(Listing, &[Current(1)], Do(RECEIVE, 4096, 0, 0)),
    // With current 2, fetch 8192: 0, value 11.
    Case(Listing, &[Current(2)], Do(FETCH, 8192, 0, 0)),
    // Invalidate 4096: 0, value 3.
    Case(Listing, &[], Do(INVALIDATE, 4096, 0, 0)),
    // Then load: 7.
    Case(Then, &[], Do(LOAD, 4096, 0, 0)),
    // Then revalidate: 0, value 3.
    Case(Then, &[], Do(REVALIDATE, 4096, 0, 0)),
    // If 1 also holds read, invalidate: 11.
    Case(Listing, &[Right(0, 1, 1)], Do(INVALIDATE, 4096, 0, 0)),
    // Number 11: 4.
    Case(Listing, &[], Do(11, 4096, 0, 0)),
    // With current 3 as well: 3.
    Case(Listing, &[Current(3)], Do(11, 4096, 0, 0)),
    // do 1 4096 65 0: answer 1 0 0.
    Case(Listing, &[], Do(STORE, 4096, 65, 0)),
    // do 7 4096 2 7: answer 2 9 0.
    Case(Then, &[], Do(TRANSFER, 4096, 2, 7)),
    // do 7 4096 1 3: answer 3 0 0.
    Case(Then, &[], Do(TRANSFER, 4096, 1, 3)),
    // do 3 8192 2 0: answer 4 0 0.
    Case(Then, &[], Do(SWITCH, 8192, 2, 0)),
    // do 6 4096 0 0: answer 5 10 0.
    Case(Then, &[], Do(RECEIVE, 4096, 0, 0)),
];
