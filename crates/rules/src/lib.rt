// The types of document 01's rules, and the parts of the rules that look at no table: rights, and the eleven
// instruction numbers with their operand ranges. No public function has a `requires`.
#![tactic(auto)]

ghost use Rattle.std.specs.Prelude.{◌≡◌, ◌%◌};
ghost use Rattle.rules.specs.Lent.{lent, lent_mut};
ghost use Rattle.rules.specs.Numbers.{part_of, join, switched};
ghost use Rattle.rules.specs.Refusals.{number_of, value_with};
ghost use Rattle.rules.specs.Instructions.{no_operands, byte_operand, division_operand, rights_operand, grant_operands, source_operand, address_of, ranged, beside, kept, decoded};

// ---- the refusal list

// The check that failed first. A refusal is made where its check is; its number and its value are said here alone.
#[derive(Clone, Copy, PartialEq, Eq)]
pub enum Refusal {
    // M, N or L outside its bounds, or a list of the wrong length.
    OutOfBounds,
    // Tables not sound; the lowest unsound cell.
    Unsound(u32),
    // Current or caller division not below M.
    NoSuchDivision,
    // Instruction number above 10.
    NoSuchInstruction,
    // Operand outside its range, or an unused operand not 0.
    BadOperand,
    // No cell covers the address.
    NotCovered,
    // Cell not valid (for revalidate: cell valid).
    NotValid,
    // Word not whole, or block or view running past last.
    NotWhole,
    // A needed right is missing.
    RightMissing,
    // No standing grant from the named source on this cell names the current division.
    NoGrant,
    // Another division holds a right on the cell.
    OtherHolds,
    // The word at the address is not the entry word.
    NotEntry,
    // The rights asked for equal those held.
    SameRights,
}

impl Refusal {
    // Its number in the list.
    pub fn number(self) -> u32
        ensures { result ≡ number_of self }
    {
        match self {
            Refusal::OutOfBounds => 1,
            Refusal::Unsound(_) => 2,
            Refusal::NoSuchDivision => 3,
            Refusal::NoSuchInstruction => 4,
            Refusal::BadOperand => 5,
            Refusal::NotCovered => 6,
            Refusal::NotValid => 7,
            Refusal::NotWhole => 8,
            Refusal::RightMissing => 9,
            Refusal::NoGrant => 10,
            Refusal::OtherHolds => 11,
            Refusal::NotEntry => 12,
            Refusal::SameRights => 13,
        }
    }

    // Its value: the lowest unsound cell for 2, and 0 for every other.
    pub fn value(self) -> u32
        ensures { result ≡ value_with self }
    {
        match self {
            Refusal::Unsound(cell) => cell,
            _ => 0,
        }
    }
}

// ---- what the caller lends

// The tables as a call takes them for reading: M, and the lists, side by side as C lends them. N is the length of `first`. The memory is lent beside them,
// since a block write writes it and reads the rest; the registers are passed beside them, since they come back as a value.
#[derive(Clone, Copy)]
pub struct Tables<'a> {
    pub m: usize,
    pub first: &'a [u32],
    pub last: &'a [u32],
    pub offset: &'a [u32],
    pub marks: &'a [u8],
    pub rights: &'a [u8],
    pub grants: &'a [u16],
}

// The same, where a call may write the marks, the rights and the grants. It is a struct of its own, as a slice's `IterMut` is:
// one that is generic in its references would need a way of reading them in every contract.
#[derive(Drop)]
pub struct TablesMut<'a> {
    pub m: usize,
    pub first: &'a [u32],
    pub last: &'a [u32],
    pub offset: &'a [u32],
    pub marks: &'a mut [u8],
    pub rights: &'a mut [u8],
    pub grants: &'a mut [u16],
}

impl TablesMut<'_> {
    // The tables for reading, as they are now.
    pub fn tables(&self) -> Tables<'_>
        ensures { lent result ≡ lent_mut self.now }
    {
        Tables {
            m: self.m,
            first: self.first,
            last: self.last,
            offset: self.offset,
            marks: self.marks,
            rights: self.rights,
            grants: self.grants,
        }
    }
}

// ---- the registers

// One core's registers. They go into a call and come back as one value.
#[repr(C)]
#[derive(Clone, Copy, PartialEq, Eq)]
pub struct Registers {
    pub current: u32,
    pub caller: u32,
    pub place: u32,
}

impl Registers {
    // The registers after a switch to a division at an address: who switched becomes the caller.
    pub fn after_switch(self, division: u32, address: u32) -> Registers
        ensures { result ≡ switched self division address }
    {
        Registers {
            current: division,
            caller: self.current,
            place: address,
        }
    }
}

// ---- rights

// A set of rights is a byte, the sum of its rights, and no struct: the lists of rights that C lends hold such bytes.
pub const READ: u8 = 1;

pub const WRITE: u8 = 2;

pub const EXECUTE: u8 = 4;

// Whether every right of `a` is in `b`: right by right, and so is the join, since a wrong program gets one right wrong.
#[tactic(auto, unfolding(crate::specs::Numbers::part_of))]
pub fn part_of(a: u8, b: u8) -> bool
    ensures { result ≡ part_of a b }
{
    (a % 2 <= b % 2) & (a / 2 % 2 <= b / 2 % 2) & (a / 4 % 2 <= b / 4 % 2)
}

// Every right of `a` and every right of `b`.
#[tactic(auto, unfolding(crate::specs::Numbers::join, crate::specs::Numbers::larger))]
pub fn join_of(a: u8, b: u8) -> u8
    ensures { result ≡ join a b }
{
    (a % 2).max(b % 2) + 2 * (a / 2 % 2).max(b / 2 % 2) + 4 * (a / 4 % 2).max(b / 4 % 2)
}

// ---- the instructions

type Address = u32;

type Division = u32;

type Rights = u8;

type Byte = u8;

// A well-formed instruction: one of the eleven kinds, with its operands.
#[derive(Clone, Copy, PartialEq, Eq)]
pub enum Instruction {
    Load(Address),
    Store(Address, Byte),
    Fetch(Address),
    Switch(Address, Division),
    Protect(Address, Rights),
    Grant(Address, Division, Rights),
    Receive(Address, Division),
    Transfer(Address, Division, Rights),
    Invalidate(Address),
    Revalidate(Address),
    Exclusive(Address),
}

impl Instruction {
    // The address that it names, which each kind has first.
    pub fn address(self) -> Address
        ensures { result ≡ address_of self }
    {
        match self {
            Instruction::Load(x)
            | Instruction::Store(x, _)
            | Instruction::Fetch(x)
            | Instruction::Switch(x, _)
            | Instruction::Protect(x, _)
            | Instruction::Grant(x, _, _)
            | Instruction::Receive(x, _)
            | Instruction::Transfer(x, _, _)
            | Instruction::Invalidate(x)
            | Instruction::Revalidate(x)
            | Instruction::Exclusive(x) => x,
        }
    }
}

// An instruction kept beside its listing position, a struct as document 01 names that form.
#[derive(Clone, Copy, PartialEq, Eq)]
pub struct Placed {
    pub position: usize,
    pub instruction: Instruction,
}

// The operand tests, a function each. Document 01 names the form, ranges on operands: a range says its bound, and no pattern
// takes a const parameter.

// Whether both operands are unused.
#[tactic(auto, unfolding(crate::specs::Instructions::no_operands))]
fn no_operands(y: u32, z: u32) -> bool
    ensures { result ≡ no_operands y z }
{
    (y == 0) & (z == 0)
}

// Whether `y` is a byte, and `z` unused.
#[tactic(auto, unfolding(crate::specs::Instructions::byte_operand))]
fn byte_operand(y: u32, z: u32) -> bool
    ensures { result ≡ byte_operand y z }
{
    match y {
        0..=255 => z == 0,
        _ => false,
    }
}

// Whether `y` is one of `m` divisions, and `z` unused.
#[tactic(auto, unfolding(crate::specs::Instructions::division_operand))]
fn division_operand(m: u32, y: u32, z: u32) -> bool
    ensures { result ≡ division_operand m y z }
{
    (y < m) & (z == 0)
}

// Whether `y` is a set of rights, none included, and `z` unused.
#[tactic(auto, unfolding(crate::specs::Instructions::rights_operand))]
fn rights_operand(y: u32, z: u32) -> bool
    ensures { result ≡ rights_operand y z }
{
    match y {
        0..=7 => z == 0,
        _ => false,
    }
}

// Whether `y` is one of `m` divisions but `d`, and `z` some rights.
#[tactic(auto, unfolding(crate::specs::Instructions::grant_operands))]
fn grant_operands(m: u32, d: u32, y: u32, z: u32) -> bool
    ensures { result ≡ grant_operands m d y z }
{
    match z {
        1..=7 => (y < m) & (y != d),
        _ => false,
    }
}

// Whether `y` is one of `m` divisions but `d`, and `z` unused.
#[tactic(auto, unfolding(crate::specs::Instructions::source_operand))]
fn source_operand(m: u32, d: u32, y: u32, z: u32) -> bool
    ensures { result ≡ source_operand m d y z }
{
    (y < m) & (y != d) & (z == 0)
}

// The lowest eight bits of a number: all of it where it is at most 255, which the ranges of the operand tests say, as document
// 01 has them; by `try_from` the same bound would be tested a second time.
fn low_byte(x: u32) -> u8
    ensures { result ≡ x % 256 }
{
    (x % 256) as u8
}

// An instruction kept beside its position if its operands are in their ranges, else refusal 5. Test and instruction are two
// parameters, as in `ranged`: else each arm of `decode` would say `then_some`.
fn keep(at: usize, in_range: bool, instruction: Instruction) -> Result<Placed, Refusal>
    ensures { kept result ≡ beside at (ranged in_range instruction) }
{
    if in_range {
        Ok(Placed {
            position: at,
            instruction,
        })
    } else {
        Err(Refusal::BadOperand)
    }
}

// The instruction that four numbers stand for where `d` of `m` divisions is current, kept beside its listing position
// `at`; refusal 4 for another number, 5 for an operand outside its range. They are four parameters, as C passes them;
// the match and its ranges are the form that document 01 names.
#[tactic(auto, unfolding(crate::specs::Instructions::formed))]
pub fn decode(
    m: u32,
    d: u32,
    at: usize,
    number: u32,
    x: u32,
    y: u32,
    z: u32,
) -> Result<Placed, Refusal>
    ensures { kept result ≡ decoded m d at number x y z }
{
    match number {
        0 => keep(at, no_operands(y, z), Instruction::Load(x)),
        1 => keep(at, byte_operand(y, z), Instruction::Store(x, low_byte(y))),
        2 => keep(at, no_operands(y, z), Instruction::Fetch(x)),
        3 => keep(at, division_operand(m, y, z), Instruction::Switch(x, y)),
        4 => keep(
            at,
            rights_operand(y, z),
            Instruction::Protect(x, low_byte(y)),
        ),
        5 => keep(
            at,
            grant_operands(m, d, y, z),
            Instruction::Grant(x, y, low_byte(z)),
        ),
        6 => keep(at, source_operand(m, d, y, z), Instruction::Receive(x, y)),
        7 => keep(
            at,
            grant_operands(m, d, y, z),
            Instruction::Transfer(x, y, low_byte(z)),
        ),
        8 => keep(at, no_operands(y, z), Instruction::Invalidate(x)),
        9 => keep(at, no_operands(y, z), Instruction::Revalidate(x)),
        10 => keep(at, no_operands(y, z), Instruction::Exclusive(x)),
        _ => Err(Refusal::NoSuchInstruction),
    }
}
