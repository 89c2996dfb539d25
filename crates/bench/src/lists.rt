// The lists, what is passed beside them, and how much of each list is lent to a call.
ghost use Rattle.std.specs.Prelude.{◌≤◌};
ghost use Rattle.bench.specs.declared.lists.TheConstants.{CELLS, ENTRIES, BYTES};

use crate::words::Setting::*;
use crate::words::{List, Setting, Start};
use rules::Registers;
use std::fmt;

// One more than the largest tables have, so that tables too large can be lent. Arrays of that size: there is no heap.
const CELLS: usize = 257;

const DIVISIONS: usize = 33;

const ENTRIES: usize = CELLS * DIVISIONS;

const BYTES: usize = 65537;

// How long the lists are lent: as document 01 says, or one of them with an entry more or with one less.
#[derive(Clone, Copy)]
pub enum Lent {
    Right,
    Longer(List),
    Shorter(List),
}

// The lists, what is passed beside them, which is M, N, L and the registers, and how they are lent.
#[derive(Clone, Copy)]
pub struct Lists {
    pub first: [u32; CELLS],
    pub last: [u32; CELLS],
    pub offset: [u32; CELLS],
    pub marks: [u8; CELLS],
    pub rights: [u8; ENTRIES],
    pub grants: [u16; ENTRIES],
    pub memory: [u8; BYTES],
    pub m: usize,
    pub n: usize,
    pub l: usize,
    pub registers: Registers,
    pub lent: Lent,
}

// How many entries of each list are lent to a call.
#[derive(Clone, Copy)]
pub struct Lengths {
    pub first: usize,
    pub last: usize,
    pub offset: usize,
    pub marks: usize,
    pub rights: usize,
    pub grants: usize,
    pub memory: usize,
    ghost cells: { (first ≤ CELLS) × (last ≤ CELLS) × (offset ≤ CELLS) × (marks ≤ CELLS) },
    ghost entries: { (rights ≤ ENTRIES) × (grants ≤ ENTRIES) },
    ghost bytes: { memory ≤ BYTES },
}

// Said of a case that names no entry there is, so that the output is not as expected.
#[derive(Clone, Copy)]
pub struct NoSuchEntry;

impl fmt::Display for NoSuchEntry {
    fn fmt<W: fmt::Write>(&self, f: &mut fmt::Formatter<W>) -> fmt::Result {
        write!(f, "no such entry")
    }
}

// The listing of document 01 before its `do` lines. What no line names is 0, and so are the three fields of `core`.
const LISTING: &[Setting] = &[
    // size 3 16
    M(3),
    L(16),
    // cell 4096 4103 0 1
    First(0, 4096),
    Last(0, 4103),
    Mark(0, 1),
    // cell 8192 8195 8 1, the second of two cells
    First(1, 8192),
    Last(1, 8195),
    Offset(1, 8),
    Mark(1, 1),
    N(2),
    // right 0 0 3
    Right(0, 0, 3),
    // right 1 2 4
    Right(1, 2, 4),
    // byte 8 11
    Byte(8, 11),
];

// The registers before any switch.
const UNSWITCHED: Registers = Registers {
    current: 0,
    caller: 0,
    place: 0,
};

// The first address of the largest tables.
const LOWEST: u32 = 4294901760;

// An entry of a list becomes a value.
fn put<T: Copy>(list: &mut [T], at: usize, value: T) -> Result<(), NoSuchEntry> {
    let entry = list.get_mut(at).ok_or(NoSuchEntry)?;
    *entry = value;
    Ok(())
}

impl Lists {
    // No tables: all is 0.
    pub fn new() -> Lists {
        Lists {
            first: [0; CELLS],
            last: [0; CELLS],
            offset: [0; CELLS],
            marks: [0; CELLS],
            rights: [0; ENTRIES],
            grants: [0; ENTRIES],
            memory: [0; BYTES],
            m: 0,
            n: 0,
            l: 0,
            registers: UNSWITCHED,
            lent: Lent::Right,
        }
    }

    // All is 0 again, in place: `*self = Lists::new()` takes twice the stack.
    fn clear(&mut self) {
        self.first.fill(0);
        self.last.fill(0);
        self.offset.fill(0);
        self.marks.fill(0);
        self.rights.fill(0);
        self.grants.fill(0);
        self.memory.fill(0);
        self.m = 0;
        self.n = 0;
        self.l = 0;
        self.registers = UNSWITCHED;
        self.lent = Lent::Right;
    }

    // Where the entry of a cell and a division is.
    fn entry(&self, cell: usize, division: usize) -> Result<usize, NoSuchEntry> {
        cell.checked_mul(self.m)
            .and_then(|row| row.checked_add(division))
            .ok_or(NoSuchEntry)
    }

    fn set(&mut self, setting: Setting) -> Result<(), NoSuchEntry> {
        match setting {
            First(cell, address) => put(&mut self.first, cell, address)?,
            Last(cell, address) => put(&mut self.last, cell, address)?,
            Offset(cell, place) => put(&mut self.offset, cell, place)?,
            Mark(cell, mark) => put(&mut self.marks, cell, mark)?,
            Right(cell, division, rights) => {
                let at = self.entry(cell, division)?;
                put(&mut self.rights, at, rights)?
            }
            Grant(cell, division, grant) => {
                let at = self.entry(cell, division)?;
                put(&mut self.grants, at, grant)?
            }
            Byte(place, byte) => put(&mut self.memory, place, byte)?,
            M(m) => self.m = m as usize,
            N(n) => self.n = n as usize,
            L(l) => self.l = l as usize,
            Current(division) => self.registers.current = division,
            Caller(division) => self.registers.caller = division,
            Place(address) => self.registers.place = address,
            Longer(list) => self.lent = Lent::Longer(list),
            Shorter(list) => self.lent = Lent::Shorter(list),
        }
        Ok(())
    }

    // Tables of the largest size: 32 divisions, and 256 cells of 256 bytes, which fill the memory and the addresses from
    // LOWEST to the last. Division c % 32 has every right on cell c.
    fn largest(&mut self) {
        for c in 0..256u32 {
            let at = c as usize;
            self.first[at] = LOWEST + 256 * c;
            self.last[at] = LOWEST + 256 * c + 255;
            self.offset[at] = 256 * c;
            self.marks[at] = 1;
            self.rights[at * 32 + at % 32] = 7;
        }
        self.m = 32;
        self.n = 256;
        self.l = 65536;
    }

    // The tables that a case starts with, as it sets them.
    pub fn prepare(&mut self, start: Start, settings: &[Setting]) -> Result<(), NoSuchEntry> {
        match start {
            Start::Listing => {
                self.clear();
                self.set_all(LISTING)?;
            }
            Start::Then => {}
            Start::Largest => {
                self.clear();
                self.largest();
            }
        }
        self.set_all(settings)
    }

    fn set_all(&mut self, settings: &[Setting]) -> Result<(), NoSuchEntry> {
        for setting in settings {
            self.set(*setting)?;
        }
        Ok(())
    }

    // How many entries are lent of a list that has room for `room` and should have `right`.
    fn length(&self, list: List, right: usize, room: usize) -> usize
        ensures { result ≤ room }
    {
        let n = right.min(room);
        match self.lent {
            Lent::Longer(one) if one == list => n.saturating_add(1).min(room),
            Lent::Shorter(one) if one == list => n.saturating_sub(1),
            _ => n,
        }
    }

    // N × M as far as the lists have room for it. Above that a call is refused whatever is lent.
    fn entries(&self) -> usize {
        self.n.min(CELLS) * self.m.min(DIVISIONS)
    }

    // How much of each list is lent.
    pub fn lengths(&self) -> Lengths {
        let nm = self.entries();
        Lengths {
            first: self.n.min(CELLS),
            last: self.length(List::Lasts, self.n, CELLS),
            offset: self.length(List::Offsets, self.n, CELLS),
            marks: self.length(List::Marks, self.n, CELLS),
            rights: self.length(List::Rights, nm, ENTRIES),
            grants: self.length(List::Grants, nm, ENTRIES),
            memory: self.l.min(BYTES),
        }
    }
}
