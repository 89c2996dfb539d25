// What a listing keeps within bounds. A value of these types is within them, so that no function asks for these bounds again.
ghost use Rattle.std.specs.Prelude.{◌≡◌, ◌≤◌, length};

use rules::TablesMut;

// A text of no more bytes than a listing may have.
#[derive(Clone, Copy)]
pub struct ShortText<'a> {
    pub bytes: &'a [u8],
    ghost short: { length bytes.now ≤ 65536 },
}

// What a size line names: M divisions, and L bytes of memory.
#[derive(Clone, Copy)]
pub struct Size {
    pub m: u32,
    pub l: u32,
    ghost divisions: { (1 ≤ m) × (m ≤ 32) },
    ghost bytes: { l ≤ 65536 },
}

// The tables and the memory of a listing: of its M, and with no more cells and entries than a listing may have.
#[derive(Drop)]
pub struct Loaded<'a> {
    pub size: Size,
    pub tables: TablesMut<'a>,
    pub memory: &'a mut [u8],
    ghost of_size: { tables.m ≡ size.m },
    ghost cells: { length tables.first.now ≤ 256 },
    ghost entries: { (length tables.rights.now ≤ 8192) × (length tables.grants.now ≤ 8192) },
}
