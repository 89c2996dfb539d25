// Writing where there is room, which each function requires; `put` tests it. Digit by digit: `put_number` promises room for ten
// digits or nothing, and that what is written is `decimal`; `write!` says neither. Each writes at a place and answers the
// place after what it wrote.
ghost use Rattle.std.specs.Prelude.{◌≡◌, ◌+◌, ◌*◌, ◌≤◌, ◌<◌, length, set};
ghost use Rattle.text.specs.Text.{Puts, decimal_in, decimal, fields_text};

fn write_byte(out: &mut [u8], at: usize, b: u8) -> usize
    requires { at < length out.old }
    ensures { (result ≡ at + 1) × (out.new ≡ set out.old at b) }
{
    out[at] = b;
    at + 1
}

// The last f digits of n, without leading zeros. The digits before the last are written first, so that no width is
// counted and nothing is turned round.
#[tactic(auto, using(crate::proofs::Room::put_long, crate::proofs::Writing::digits_length))]
fn write_digits(out: &mut [u8], at: usize, n: u32, f: usize) -> usize
    requires { at + f ≤ length out.old }
    ensures { Puts out at (decimal_in f n) result }
{
    if f == 0 {
        return at;
    }
    if n < 10 {
        return write_byte(out, at, b'0' + n as u8);
    }
    let end = write_digits(out, at, n / 10, f - 1);
    write_byte(out, end, b'0' + (n % 10) as u8)
}

// A number in decimal; ten digits are enough for a `u32`.
#[tactic(auto, unfolding(crate::specs::Text::decimal))]
pub fn write_number(out: &mut [u8], at: usize, n: u32) -> usize
    requires { at + 10 ≤ length out.old }
    ensures { Puts out at (decimal n) result }
{
    write_digits(out, at, n, 10)
}

#[tactic(auto, using(crate::proofs::Writing::word_copied))]
pub fn write_word(out: &mut [u8], at: usize, word: &[u8]) -> usize
    requires { at + length word.now ≤ length out.old }
    ensures { Puts out at word.now result }
{
    let end = at + word.len();
    out[at..end].copy_from_slice(word);
    end
}

// A tab before each of the numbers, and the line feed.
pub fn write_fields(out: &mut [u8], at: usize, numbers: &[u32]) -> usize
    requires { at + 11 * length numbers.now + 1 ≤ length out.old }
    ensures { Puts out at (fields_text (length numbers.now) 0 numbers.now) result }
{
    let mut end = at;
    for n in numbers {
        end = write_byte(out, end, b'\t');
        end = write_number(out, end, *n);
    }
    write_byte(out, end, b'\n')
}
