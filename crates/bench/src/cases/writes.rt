// Block write: what is filled.
use crate::words::Call::*;
use crate::words::Setting::*;
use crate::words::Start::*;
use crate::words::*;

pub const CASES: &[Case] = &[
    // The block's part of the memory is filled; the value is 0.
    Case(Listing, &[], Write(4096, 3)),
    Case(Listing, &[], Write(4096, 8)),
    // Starting in its middle.
    Case(Listing, &[], Write(4098, 2)),
    // The block's part of the memory is filled; the value is 0.
    Case(Listing, &[], Write(4103, 1)),
    // No bytes: checks still apply, 8 holds, nothing changes.
    Case(Listing, &[], Write(4096, 0)),
    Case(Listing, &[], Write(4103, 0)),
    Case(Listing, &[], Write(4104, 0)),
    Case(Listing, &[Mark(0, 0)], Write(4096, 0)),
    Case(Listing, &[], Write(8192, 0)),
    Case(
        Listing,
        &[First(1, 4294967292), Last(1, TOP), Right(1, 0, 2)],
        Write(TOP, 0),
    ),
    // Block running past last, near 4,294,967,295.
    Case(Then, &[], Write(TOP, 1)),
    Case(Then, &[], Write(TOP, 2)),
    Case(Then, &[], Write(TOP, 65537)),
    Case(Then, &[], Write(4294967292, 4)),
    Case(Then, &[], Write(4294967292, 5)),
    Case(Listing, &[], Write(TOP, 65537)),
    // Block running past last.
    Case(
        Listing,
        &[First(1, 4104), Last(1, 4107), Right(1, 0, 3)],
        Write(4103, 2),
    ),
    // The block's part of the memory is filled; the value is 0.
    Case(Then, &[], Write(4104, 4)),
    // A byte's place in memory is offset + address - first.
    Case(
        Listing,
        &[First(1, 8191), Last(1, 8197), Offset(1, 9), Right(1, 0, 2)],
        Write(8193, 3),
    ),
    // The block's part of the memory is filled; the value is 0.
    Case(Largest, &[Current(31)], Write(4294967294, 2)),
    // Block running past last.
    Case(Then, &[], Write(4294967294, 3)),
];
