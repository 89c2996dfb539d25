// The number that stands at a place of a text.
ghost use Rattle.std.specs.Prelude.{◌≡◌, ◌+◌, ◌-◌, ◌*◌, ◌≤◌, min, drop};
ghost use Rattle.text.specs.Number.{peek_at, byte_or_none, digits_in, value_from, number_at, option_of_field};

// The value at which a run is kept: one more than a number may be.
const TOO_LARGE: u64 = 1 << 32;

// A number, and the place after it.
#[derive(Clone, Copy, PartialEq, Eq)]
pub struct Number {
    pub value: u32,
    pub next: usize,
}

// The byte at a place, or none past the end. So no reader asks where the text ends.
pub fn peek(s: &[u8], at: usize) -> Option<u8>
    ensures { result ≡ byte_or_none (peek_at s.now at) }
{
    s.get(at).copied()
}

// The value with the digit c behind it.
fn shift(value: u64, c: u8) -> u64
    requires { (value ≤ 4294967296) × (48 ≤ c) × (c ≤ 57) }
    ensures { result ≡ min (10 * value + (c - 48)) 4294967296 }
{
    (10 * value + u64::from(c - b'0')).min(TOO_LARGE)
}

// The run of digits at a place, which may be empty: its value, and the place after it. The value is kept at 4,294,967,296 where
// it is more, so that it does not wrap however long the run is. A loop: what `shift` asks of the value so far is its
// invariant, and a `fold` would have to ask it of every value.
fn run_at(s: &[u8], at: usize) -> (u64, usize)
    ensures value { result.0 ≡ min (value_from 0 (drop at s.now)) 4294967296 }
    ensures next { result.1 ≡ at + digits_in (drop at s.now) }
{
    let mut value = 0;
    let mut next = at;
    while let Some(c @ b'0'..=b'9') = peek(s, next) {
        value = shift(value, c);
        next += 1;
    }
    (value, next)
}

// The number at a place, read digit by digit: `parse` takes `+1` and `00`, and no text that goes on. It goes as far as there are digits: what may stand behind it is for the caller to test.
#[tactic(auto, using(crate::proofs::Numbers::number_large, crate::proofs::Numbers::number_plain, crate::proofs::Numbers::number_zero, crate::proofs::Numbers::number_padded, crate::proofs::Numbers::number_empty))]
pub fn number_at(s: &[u8], at: usize) -> Option<Number>
    ensures { result ≡ option_of_field (number_at s.now at) }
{
    let (value, next) = run_at(s, at);
    let value = u32::try_from(value).ok()?;
    let digits = next - at;
    if digits == 0 {
        return None;
    }
    if digits > 1 && peek(s, at) == Some(b'0') {
        return None;
    }
    Some(Number { value, next })
}
