// Bytes as hexadecimal digits.
ghost use Rattle.std.specs.Prelude.{◌≡◌, ◌++◌, ◌/◌, ◌≤◌, length, drop};
ghost use Rattle.text.specs.Hex.{ten as ten_of, is_letter, is_nibble, nibble as nibble_of, any_digit, worth as worth_of, hex_digits, bytes_of, bytes_read, bytes_left};

use crate::read_decimals::is_digit;

// Which letters stand for the digits from ten on.
#[derive(Clone, Copy, PartialEq, Eq)]
pub enum Case {
    Lower,
    Upper,
}

// Why a text says no bytes: it has other characters or half a byte, or says more bytes than there is room for.
#[derive(Clone, Copy, PartialEq, Eq)]
pub enum BytesError {
    NotHex,
    Over,
}

// The letter that stands for ten.
pub fn ten(case: Case) -> u8
    ensures { (result ≡ ten_of case) × (result ≤ 97) }
{
    match case {
        Case::Lower => b'a',
        Case::Upper => b'A',
    }
}

fn is_letter(b: u8, a: u8) -> bool
    ensures { result ≡ is_letter a b }
{
    b >= a && b - a <= 5
}

// A digit where the letter a stands for ten.
pub fn is_nibble(b: u8, a: u8) -> bool
    ensures { result ≡ is_nibble a b }
{
    is_digit(b) || is_letter(b, a)
}

// What a digit is worth, 0 where it is none.
pub fn nibble(b: u8, a: u8) -> u8
    ensures { (result ≡ nibble_of a b) × (result ≤ 15) }
{
    if is_digit(b) {
        b - b'0'
    } else if is_letter(b, a) {
        b - a + 10
    } else {
        0
    }
}

// A digit of either letter case.
pub fn is_any_digit(b: u8) -> bool
    ensures { result ≡ any_digit b }
{
    is_nibble(b, b'A') || is_nibble(b, b'a')
}

// What it is worth, 0 where it is none.
pub fn worth(b: u8) -> u8
    ensures { (result ≡ worth_of b) × (result ≤ 15) }
{
    if is_nibble(b, b'A') {
        nibble(b, b'A')
    } else {
        nibble(b, b'a')
    }
}

fn hex_digits(s: &[u8], a: u8) -> bool
    ensures { result ≡ hex_digits a s.now }
{
    s.len() % 2 == 0 && s.iter().all(|&b| is_nibble(b, a))
}

fn decode(s: &[u8], a: u8, out: &mut [u8])
    requires { length s.now / 2 ≤ length out.old }
    ensures { out.new ≡ bytes_of a s.now ++ drop (length s.now / 2) out.old }
{
    for i in 0..s.len() / 2 {
        out[i] = nibble(s[2 * i], a) * 16 + nibble(s[2 * i + 1], a);
    }
}

// Whole bytes, of digits alone; none is whole too.
pub fn is_hex(s: &[u8], case: Case) -> bool
    ensures { result ≡ hex_digits (ten_of case) s.now }
{
    hex_digits(s, ten(case))
}

// Puts the bytes that the text says at the start of out, where out has room for them, and answers how many; else out stays as it is.
#[tactic(auto, unfolding(crate::specs::Hex::bytes_read, crate::specs::Hex::bytes_left))]
pub fn read_hex(s: &[u8], case: Case, out: &mut [u8]) -> Result<usize, BytesError>
    ensures { (result ≡ bytes_read case s.now (length out.old)) × (out.new ≡ bytes_left case s.now out.old) }
{
    let a = ten(case);
    let n = s.len() / 2;
    if !hex_digits(s, a) {
        return Err(BytesError::NotHex);
    }
    if n > out.len() {
        return Err(BytesError::Over);
    }
    decode(s, a, out);
    Ok(n)
}
