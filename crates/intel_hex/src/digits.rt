// The digits of a record: two a byte, of either letter case.
ghost use Rattle.std.specs.Prelude.{◌≡◌, ◌+◌, ◌*◌, ◌<◌, length, drop, get_or};
ghost use Rattle.intel_hex.specs.Record.{hex_pairs, said, without_cr, is_digit_line};

use text::hex::{is_any_digit, worth};

// What a line holds before the CR that may end it.
fn without_cr(line: &[u8]) -> &[u8]
    ensures { result.now ≡ without_cr line.now }
{
    match line {
        [held @ .., b'\r'] => held,
        _ => line,
    }
}

// What stands behind a line's first character.
pub(crate) fn digits_of(line: &[u8]) -> &[u8]
    ensures { result.now ≡ drop 1 (without_cr line.now) }
{
    match without_cr(line) {
        [_, digits @ ..] => digits,
        empty => empty,
    }
}

fn hex_pairs(digits: &[u8]) -> bool
    ensures { result ≡ hex_pairs digits.now }
{
    digits.len() % 2 == 0 && digits.iter().all(|&b| is_any_digit(b))
}

// A colon and whole bytes.
#[tactic(auto, unfolding(crate::specs::Record::is_digit_line))]
pub(crate) fn is_digit_line(line: &[u8]) -> bool
    ensures { result ≡ is_digit_line line.now }
{
    match without_cr(line) {
        [b':', digits @ ..] => hex_pairs(digits),
        _ => false,
    }
}

pub(crate) fn byte_at(digits: &[u8], k: usize) -> u8
    requires { 2 * k + 1 < length digits.now }
    ensures { result ≡ get_or (said digits.now) k 0 }
{
    worth(digits[2 * k]) * 16 + worth(digits[2 * k + 1])
}
