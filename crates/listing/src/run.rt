// A listing run: the text in, and what is written of it out. Each function does one stage and hands on to the next, so that
// a text that is wrong leaves at the stage where it is.
ghost use Rattle.std.specs.Prelude.{◌≡◌, ◌+◌, ◌*◌, ◌≤◌, length, replicate};
ghost use Rattle.text.specs.Text.{Puts, Ends};
ghost use Rattle.rules.specs.Lent.{lent_mut};
ghost use Rattle.rules.specs.Numbers.{state};
ghost use Rattle.listing.specs.Lines.{core_row};
ghost use Rattle.listing.specs.Listing.{run as the_run, from_core, from_rights, cells_at};
ghost use Rattle.listing.specs.Output.{body_of};
ghost use Rattle.listing.specs.Reading.{Blank, Roomy, cells_in, output_room, written_in};

use crate::bounds::{Loaded, ShortText, Size};
use crate::cells::cells_at;
use crate::dos::dos_at;
use crate::entries::{byte_at, fill, grant_at, right_at};
use crate::lines::{core_row, head_row, size_row};
use crate::put::{put_answers, put_bad, put_head, put_state};
use monitor::execute_all;
use rules::{Registers, TablesMut};

// Room for every output, with some to spare: `cells 1`, 5,957 answers, the core, 8,192 rights and 8,192 grants.
const ROOM: usize = 532480;

// A list at its largest: there is no heap, so that parts of such lists are lent on. It comes from a function of its own, so
// that a proof knows no more of it than it needs. `cellrun` has a `room` of its own: a public function would need a theorem and an
// edit, for the one line.
fn filled<T: Copy, const N: usize>(value: T) -> [T; N]
    ensures { result ≡ replicate N value }
{
    [value; N]
}

// Runs the instructions, four numbers each, and writes their answers and the state after them; the place after. `Roomy` is a
// clause of this and of the next three, and no type: each would have to say besides that the buffer is the one it was lent. The
// count is said once for the instructions and both lists of answers.
fn run_instructions(
    loaded: &mut Loaded,
    registers: Registers,
    instructions: &[u32],
    count: usize,
    numbers: &mut [u32],
    values: &mut [u32],
    out: &mut [u8],
    at: usize,
) -> usize
    requires answers { (length numbers.old ≡ 5957) × (length values.old ≡ 5957) }
    requires sizes { (length instructions.now ≡ 4 * count) × (count ≤ 5957) × Roomy at out.old }
    ensures puts { Puts out at (body_of (the_run (state (lent_mut loaded.old.tables loaded.old.memory.now) registers) count instructions.now)) result }
    ensures ends { result ≤ output_room }
{
    let after = execute_all(
        &mut loaded.tables,
        loaded.memory,
        registers,
        instructions,
        numbers,
        values,
    );
    let end = put_answers(out, at, &numbers[..count], &values[..count]);
    put_state(out, end, after, loaded)
}

// From the core line on, behind `line` lines.
fn run_core(
    s: ShortText,
    next: usize,
    line: usize,
    loaded: &mut Loaded,
    out: &mut [u8],
    at: usize,
) -> usize
    requires { (line ≤ 262144) × Roomy at out.old }
    ensures puts { Puts out at (body_of (from_core s.entry.bytes.now line (lent_mut loaded.old.tables loaded.old.memory.now) (core_row s.entry.bytes.now next))) result }
    ensures ends { result ≤ output_room }
{
    let Some(core) = core_row(s.bytes, next) else {
        return put_bad(out, at, (line + 1) as u32);
    };
    let mut list = filled::<u32, 23828>(0);
    let dos = dos_at(s, core.next, &mut list);
    let count = dos.count;
    if dos.next != s.bytes.len() {
        return put_bad(out, at, (line + 1 + count + 1) as u32);
    }
    let end = 4 * count;
    let registers = Registers {
        current: core.v[0],
        caller: core.v[1],
        place: core.v[2],
    };
    let mut numbers = filled::<u32, 5957>(0);
    let mut values = filled::<u32, 5957>(0);
    run_instructions(
        loaded,
        registers,
        &list[..end],
        count,
        &mut numbers,
        &mut values,
        out,
        at,
    )
}

// From the right lines on, into lists of zeros.
fn run_rights(s: ShortText, next: usize, loaded: &mut Loaded, out: &mut [u8], at: usize) -> usize
    requires blank { Blank loaded.old }
    requires roomy { Roomy at out.old }
    ensures puts { Puts out at (body_of (from_rights s.entry.bytes.now loaded.old.size.m loaded.old.size.l (cells_in next loaded.old.tables))) result }
    ensures ends { result ≤ output_room }
{
    let n = loaded.tables.first.len();
    let size = loaded.size;
    let cells = n as u32;
    let text = s.bytes;
    let most = text.len();
    let tables = &mut loaded.tables;
    let a = fill(
        |at| right_at(text, at, cells, size),
        most,
        next,
        tables.rights,
    );
    let b = fill(
        |at| grant_at(text, at, cells, size),
        most,
        a.next,
        tables.grants,
    );
    let c = fill(|at| byte_at(text, at, size), most, b.next, loaded.memory);
    let line = 2 + n + a.count + b.count + c.count;
    run_core(s, c.next, line, loaded, out, at)
}

// From the cell lines on, with the lists at their largest, of which the parts that the size line asks for are lent on.
fn run_cells(s: ShortText, next: usize, size: Size, out: &mut [u8], at: usize) -> usize
    requires { Roomy at out.old }
    ensures puts { Puts out at (body_of (from_rights s.entry.bytes.now size.m size.l (cells_at s.entry.bytes.now next))) result }
    ensures ends { result ≤ output_room }
{
    let mut first = [0u32; 256];
    let mut last = [0u32; 256];
    let mut offset = [0u32; 256];
    let mut marks = [0u8; 256];
    let mut rights = filled::<u8, 8192>(0);
    let mut grants = filled::<u16, 8192>(0);
    let mut memory = filled::<u8, 65536>(0);
    let cells = cells_at(
        s.bytes,
        next,
        &mut first,
        &mut last,
        &mut offset,
        &mut marks,
    );
    let n = cells.count;
    let m = size.m as usize;
    let entries = n * m;
    let bytes = size.l as usize;
    let tables = TablesMut {
        m,
        first: &first[..n],
        last: &last[..n],
        offset: &offset[..n],
        marks: &mut marks[..n],
        rights: &mut rights[..entries],
        grants: &mut grants[..entries],
    };
    let mut loaded = Loaded {
        size,
        tables,
        memory: &mut memory[..bytes],
    };
    run_rights(s, cells.next, &mut loaded, out, at)
}

// What `cellrun` writes of the text `s`, to the front of `out`, and how long it is. Where `out` has not the 532,480 bytes that
// are enough for every text, nothing is written.
pub fn cellrun(s: &[u8], out: &mut [u8]) -> usize
    ensures puts { Puts out 0 (written_in out.old s.now) result }
    ensures ends { Ends 0 result out.new }
{
    if out.len() < ROOM {
        return 0;
    }
    let at = put_head(out);
    if 65536 < s.len() {
        return put_bad(out, at, 0);
    }
    let Some(head) = head_row(s, 0) else {
        return put_bad(out, at, 1);
    };
    let Some(row) = size_row(s, head.next) else {
        return put_bad(out, at, 2);
    };
    let text = ShortText { bytes: s };
    let size = Size {
        m: row.v[0],
        l: row.v[1],
    };
    run_cells(text, row.next, size, out, at)
}
