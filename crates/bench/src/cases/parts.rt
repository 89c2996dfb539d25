// Read view: the part that is returned.
use crate::words::Call::*;
use crate::words::Setting::*;
use crate::words::Start::*;
use crate::words::*;

pub const CASES: &[Case] = &[
    // The part of the lent memory itself is returned.
    Case(Listing, &[Byte(0, 65), Byte(7, 90)], View(4096, 8)),
    Case(Then, &[], View(4096, 1)),
    Case(Then, &[], View(4102, 2)),
    Case(Then, &[], View(4103, 1)),
    // No bytes: checks still apply, 8 holds.
    Case(Then, &[], View(4096, 0)),
    Case(Then, &[], View(4103, 0)),
    Case(Then, &[], View(4104, 0)),
    Case(Then, &[], View(8192, 0)),
    Case(Listing, &[Mark(0, 0)], View(4096, 0)),
    Case(
        Listing,
        &[
            First(1, 4294967292),
            Last(1, TOP),
            Right(1, 0, 1),
            Byte(11, 99),
        ],
        View(TOP, 0),
    ),
    // View running past last, near 4,294,967,295.
    Case(Then, &[], View(TOP, 1)),
    Case(Then, &[], View(TOP, 2)),
    Case(Then, &[], View(TOP, 4294967295)),
    Case(Then, &[], View(TOP, 4294967296)),
    Case(Then, &[], View(TOP, 4294967297)),
    Case(Then, &[], View(TOP, 18446744069414584321)),
    Case(Then, &[], View(TOP, 18446744073709551615)),
    Case(Then, &[], View(4294967292, 4)),
    Case(Then, &[], View(4294967292, 5)),
    Case(Listing, &[], View(TOP, 18446744073709551615)),
    // View running past last.
    Case(
        Listing,
        &[First(1, 4104), Last(1, 4107), Right(1, 0, 1)],
        View(4103, 2),
    ),
    // The part of the lent memory itself is returned.
    Case(Then, &[], View(4104, 4)),
    // A byte's place in memory is offset + address - first.
    Case(
        Listing,
        &[
            First(1, 8191),
            Last(1, 8197),
            Offset(1, 9),
            Right(1, 0, 1),
            Byte(10, 1),
            Byte(12, 3),
        ],
        View(8192, 3),
    ),
    // The part of the lent memory itself is returned.
    Case(Largest, &[Current(31), Byte(65535, 7)], View(4294967294, 2)),
    // View running past last.
    Case(Then, &[], View(4294967294, 3)),
];
