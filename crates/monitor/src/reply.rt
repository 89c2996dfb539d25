// What a call hands back.
ghost use Rattle.std.specs.Prelude.{◌≡◌};
ghost use Rattle.monitor.specs.Ready.{replied};

use rules::{Refusal, Registers};

// What a call answers: a number of the refusal list, 0 for acceptance, the value that goes with it, and the registers.
// They are numbers, and no `Result`, since C gets them.
#[repr(C)]
#[derive(Clone, Copy, PartialEq, Eq)]
pub struct Reply {
    pub number: u32,
    pub value: u32,
    pub registers: Registers,
}

// A read view's number and value, where its part begins in the memory, and how many bytes it has; both 0 on a refusal.
// C gets this one too.
#[repr(C)]
#[derive(Clone, Copy, PartialEq, Eq)]
pub struct ViewPlace {
    pub number: u32,
    pub value: u32,
    pub start: usize,
    pub count: usize,
}

// An acceptance: its value, and the registers afterwards.
#[derive(Clone, Copy)]
pub struct Accepted(pub u32, pub Registers);

impl Reply {
    // The reply to a call: a refusal leaves the registers as they were.
    pub(crate) fn new(answer: Result<Accepted, Refusal>, before: Registers) -> Reply
        ensures { result ≡ replied answer before }
    {
        match answer {
            Ok(Accepted(value, registers)) => Reply {
                number: 0,
                value,
                registers,
            },
            Err(refusal) => Reply {
                number: refusal.number(),
                value: refusal.value(),
                registers: before,
            },
        }
    }
}
