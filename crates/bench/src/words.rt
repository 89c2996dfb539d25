// The words of a case.

// One case: the tables that it starts with, what is set in them first, in order, and the call that is made. Its parts have
// no names, so that most cases are a line each.
pub struct Case(pub Start, pub &'static [Setting], pub Call);

#[derive(Clone, Copy)]
pub enum Start {
    // The listing of document 01, before its `do` lines.
    Listing,
    // What the case above left.
    Then,
    // Tables of the largest size (`Lists::largest`).
    Largest,
}

#[derive(Clone, Copy)]
pub enum Setting {
    // Of a cell: its number, and what it gets.
    First(usize, u32),
    Last(usize, u32),
    Offset(usize, u32),
    Mark(usize, u8),
    // Of a cell and a division: their numbers, and what they get. A grant is target + 256 × rights.
    Right(usize, usize, u8),
    Grant(usize, usize, u16),
    // Of the memory: a place, and the byte there.
    Byte(usize, u8),
    // What is passed beside the lists. N and L are the lengths of first and of the memory.
    M(u32),
    N(u32),
    L(u32),
    Current(u32),
    Caller(u32),
    Place(u32),
    // The one list that is lent with an entry more, or with one less, than document 01 says.
    Longer(List),
    Shorter(List),
}

// The lists whose length could be wrong.
#[derive(Clone, Copy, PartialEq, Eq)]
pub enum List {
    Lasts,
    Offsets,
    Marks,
    Rights,
    Grants,
}

#[derive(Clone, Copy)]
pub enum Call {
    // An instruction: number, x, y, z.
    Do(u32, u32, u32, u32),
    // A block write: address, number of bytes, at most 65,537. The bytes are 1, 2, 3 and so on.
    Write(u32, usize),
    // A read view: address, number of bytes.
    View(u32, usize),
}

// ---- instruction numbers, and no enum: a call takes a number, and there are cases with 11, 256 and TOP

pub const LOAD: u32 = 0;

pub const STORE: u32 = 1;

pub const FETCH: u32 = 2;

pub const SWITCH: u32 = 3;

pub const PROTECT: u32 = 4;

pub const GRANT: u32 = 5;

pub const RECEIVE: u32 = 6;

pub const TRANSFER: u32 = 7;

pub const INVALIDATE: u32 = 8;

pub const REVALIDATE: u32 = 9;

pub const EXCLUSIVE: u32 = 10;

// ---- numbers

// The largest number of 32 bits, which is the last address.
pub const TOP: u32 = 4294967295;
