// Decimal numbers.
ghost use Rattle.std.specs.Prelude.{◌≡◌, ◌-◌, ◌≤◌, pos, neg_ℤ};
ghost use Rattle.text.specs.Decimal.{is_digit, digits, valued, number_of, signed_of};

// Why a text says no number: it has other characters or none, or says a number that is too large.
#[derive(Clone, Copy, PartialEq, Eq)]
pub enum NumberError {
    NotDigits,
    Over,
}

pub fn is_digit(b: u8) -> bool
    ensures { result ≡ is_digit b }
{
    b >= b'0' && b <= b'9'
}

fn all_digits(s: &[u8]) -> bool
    ensures { result ≡ digits s.now }
{
    s.len() > 0 && s.iter().all(|&b| is_digit(b))
}

// What a digit is worth.
fn worth(b: u8) -> u64
    ensures { (result ≡ b - 48) × (result ≤ 207) }
{
    b.saturating_sub(b'0') as u64
}

// The value of digits that is at most `most`.
fn value(s: &[u8], most: u64) -> Result<u64, NumberError>
    ensures { result ≡ valued most s.now }
{
    let mut n: u64 = 0;
    for &b in s {
        let d = worth(b);
        if n > most / 10 || d > most - n * 10 {
            return Err(NumberError::Over);
        }
        n = n * 10 + d;
    }
    Ok(n)
}

// A decimal number from 0 to `most`: digits alone, at least one, zeros in front allowed.
#[tactic(auto, unfolding(crate::specs::Decimal::number_of))]
pub fn read_number(s: &[u8], most: u64) -> Result<u64, NumberError>
    ensures { result ≡ number_of most s.now }
{
    if all_digits(s) {
        value(s, most)
    } else {
        Err(NumberError::NotDigits)
    }
}

// The number below zero that has these digits behind its sign.
fn below_zero(n: u64) -> i32
    requires { n ≤ 2147483648 }
    ensures { result ≡ neg_ℤ (pos n) }
{
    -(n as i64) as i32
}

// A decimal number of 32 bits, with a minus sign in front where it is below zero.
#[tactic(auto, using(crate::proofs::read_decimals::Valued::signs))]
pub fn read_signed(s: &[u8]) -> Result<i32, NumberError>
    ensures { result ≡ signed_of s.now }
{
    if s.starts_with(b"-") {
        let n = read_number(&s[1..], 2147483648)?;
        return Ok(below_zero(n));
    }
    let n = read_number(s, 2147483647)?;
    Ok(n as i32)
}
