// Whole words, fetch, and the entry word: checks 8 and 12.
use crate::words::Call::*;
use crate::words::Setting::*;
use crate::words::Start::*;
use crate::words::*;

pub const CASES: &[Case] = &[
    // Word not whole: address not a multiple of 4, or address + 3 above last.
    Case(Listing, &[], Do(FETCH, 4096, 0, 0)),
    Case(Listing, &[], Do(FETCH, 4097, 0, 0)),
    Case(Listing, &[], Do(FETCH, 4100, 0, 0)),
    Case(Listing, &[], Do(FETCH, 4102, 0, 0)),
    Case(Listing, &[Current(2), Last(1, 8194)], Do(FETCH, 8192, 0, 0)),
    Case(Listing, &[Current(2), Last(1, 8198)], Do(FETCH, 8196, 0, 0)),
    // Fetch: word, low byte first.
    Case(
        Listing,
        &[Current(2), Last(1, 8199), Byte(15, 1)],
        Do(FETCH, 8196, 0, 0),
    ),
    // Word not whole: address not a multiple of 4, or address + 3 above last.
    Case(Then, &[], Do(FETCH, 8193, 0, 0)),
    // Fetch: word, low byte first.
    Case(
        Listing,
        &[
            Current(2),
            Byte(8, 255),
            Byte(9, 255),
            Byte(10, 255),
            Byte(11, 255),
        ],
        Do(FETCH, 8192, 0, 0),
    ),
    // A byte's place in memory is offset + address - first.
    Case(
        Listing,
        &[
            First(1, 8191),
            Last(1, 8197),
            Offset(1, 9),
            Byte(10, 1),
            Byte(11, 2),
            Byte(12, 3),
            Byte(13, 4),
            Current(2),
        ],
        Do(FETCH, 8192, 0, 0),
    ),
    // Word not whole: address not a multiple of 4, or address + 3 above last.
    Case(Then, &[], Do(FETCH, 8191, 0, 0)),
    Case(Then, &[], Do(FETCH, 8196, 0, 0)),
    // A byte's place in memory is offset + address - first.
    Case(Then, &[Right(1, 2, 5)], Do(LOAD, 8193, 0, 0)),
    // Word not whole: address not a multiple of 4, or address + 3 above last.
    Case(
        Listing,
        &[First(1, 4294967292), Last(1, TOP), Current(2)],
        Do(FETCH, 4294967292, 0, 0),
    ),
    Case(Then, &[], Do(FETCH, TOP, 0, 0)),
    Case(Then, &[Last(1, 4294967294)], Do(FETCH, 4294967292, 0, 0)),
];
