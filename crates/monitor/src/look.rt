// What the judges look up in one cell.
ghost use Rattle.std.specs.Prelude.{◌≡◌, true, ◌&&◌, ◌+◌, ◌-◌, ◌*◌, ◌≤◌, ◌<◌, length, get_or, eqb};
ghost use Rattle.rules.specs.Instructions.{word_in, whole_word, entry_word, grant_names, other_holder};
ghost use Rattle.monitor.specs.Leaves.{other_in};

use rules::Tables;

// The word at which a switch may enter a division: bytes 11, 0, 0, 0.
const ENTRY_WORD: u32 = 11;

// The rights of division `d` on cell `c`. A cell is a parameter beside the tables, and no struct with them: a search, a judge and
// an effect each have one cell, and hand it on.
pub fn held_at(tables: Tables, c: usize, d: usize) -> u8
    requires { c * tables.m + d < length tables.rights.now }
    ensures { result ≡ get_or tables.entry.rights.now (c * tables.entry.m + d) 0 }
{
    tables.rights[c * tables.m + d]
}

// Whether the entry `g` is a grant that names `d`. An entry of 0 is none, though its target would read as division 0. The target
// is one remainder of the number that C lends.
#[tactic(auto, unfolding(rules::specs::Instructions::grant_names))]
pub fn grant_names(g: u16, d: u32) -> bool
    ensures { result ≡ grant_names g d }
{
    (g != 0) & ((g % 256) as u32 == d)
}

// The place in memory of the byte at `x`, in the cell `c` that covers it.
pub fn place_of(tables: Tables, c: usize, x: u32) -> usize
    requires { (c < length tables.first.now) × ((c < length tables.offset.now) × (get_or tables.first.now c 0 ≤ x)) }
    ensures { result ≡ get_or tables.entry.offset.now c 0 + x - get_or tables.entry.first.now c 0 }
{
    tables.offset[c] as usize + (x - tables.first[c]) as usize
}

// Whether the word at `x` is whole in a cell that ends with `last`. The difference cannot wrap, as a sum could.
pub fn whole_word(last: u32, x: u32) -> bool
    requires { x ≤ last }
    ensures { result ≡ whole_word last x }
{
    (x % 4 == 0) & (3 <= last - x)
}

// The word at a place in memory, low byte first.
#[tactic(auto, unfolding(rules::specs::Instructions::word_in))]
pub fn word_in(memory: &[u8], place: usize) -> u32
    requires { place + 3 < length memory.now }
    ensures { result ≡ word_in memory.now place }
{
    u32::from_le_bytes([
        memory[place],
        memory[place + 1],
        memory[place + 2],
        memory[place + 3],
    ])
}

// The lowest division but `d` that holds a right on cell `c`.
pub fn other_holder(tables: Tables, c: usize, d: usize) -> Option<usize>
    requires { c * tables.m + tables.m ≤ length tables.rights.now }
    ensures { result ≡ other_in tables.entry.m tables.entry.rights.now c d }
{
    for k in 0..tables.m {
        if (k != d) & (0 < tables.rights[c * tables.m + k]) {
            return Some(k);
        }
    }
    None
}

// Whether nobody but `d` holds a right on cell `c`.
pub fn nobody_else(tables: Tables, c: usize, d: usize) -> bool
    requires { c * tables.m + tables.m ≤ length tables.rights.now }
    ensures { result ≡ eqb (other_holder tables.entry.m tables.entry.rights.now c d) tables.entry.m }
{
    other_holder(tables, c, d).is_none()
}

// Whether the word at `x` is whole and is the entry word. The memory is looked at only for a whole word.
pub fn entry_word(tables: Tables, memory: &[u8], whole: bool, c: usize, x: u32) -> bool
    requires inside { (c < length tables.first.now) × ((c < length tables.offset.now) × (get_or tables.first.now c 0 ≤ x)) }
    requires whole_inside { whole ≡ true → get_or tables.offset.now c 0 + x - get_or tables.first.now c 0 + 3 < length memory.now }
    ensures { result ≡ (whole && eqb (word_in memory.now (get_or tables.entry.offset.now c 0 + x - get_or tables.entry.first.now c 0)) entry_word) }
{
    whole && word_in(memory, place_of(tables, c, x)) == ENTRY_WORD
}
