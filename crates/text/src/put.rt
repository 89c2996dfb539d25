// Writing to a lent buffer: each function writes at a place and answers the place after, from where the next call goes
// on. Where there is no room for the longest that its text can be, it writes nothing and answers the place itself.
ghost use Rattle.std.specs.Prelude.{◌≡◌, ◌&&◌, ◌+◌, ◌*◌, leb, length};
ghost use Rattle.text.specs.Text.{Puts, Ends, number_in, word_in, row_in};

use crate::write::{write_fields, write_number, write_word};

// Whether n bytes from a place on end within len.
fn has_room(at: usize, n: usize, len: usize) -> bool
    ensures { result ≡ leb (at + n) len }
{
    at.checked_add(n).is_some_and(|end| end <= len)
}

// Whether a line can be written: a word of so many bytes, at most five numbers, to each a tab and ten digits, and the
// line feed.
fn row_has_room(at: usize, word: usize, k: usize, len: usize) -> bool
    ensures { result ≡ (leb k 5 && leb (at + (word + 11 * k + 1)) len) }
{
    k <= 5 && has_room(at, word, len) && has_room(at + word, 11 * k + 1, len)
}

// The word, or any other bytes.
pub fn put_word(out: &mut [u8], at: usize, word: &[u8]) -> usize
    ensures puts { Puts out at (word_in out.old at word.now) result }
    ensures ends { Ends at result out.new }
{
    if has_room(at, word.len(), out.len()) {
        write_word(out, at, word)
    } else {
        at
    }
}

// The number in decimal, where there is room for ten digits.
pub fn put_number(out: &mut [u8], at: usize, n: u32) -> usize
    ensures puts { Puts out at (number_in out.old at n) result }
    ensures ends { Ends at result out.new }
{
    if has_room(at, 10, out.len()) {
        write_number(out, at, n)
    } else {
        at
    }
}

// The line of a keyword and numbers, at most five.
pub fn put_row(out: &mut [u8], at: usize, word: &[u8], numbers: &[u32]) -> usize
    ensures puts { Puts out at (row_in out.old at word.now numbers.now (length numbers.now)) result }
    ensures ends { Ends at result out.new }
{
    if row_has_room(at, word.len(), numbers.len(), out.len()) {
        let end = write_word(out, at, word);
        write_fields(out, end, numbers)
    } else {
        at
    }
}
