// Writing text into a lent place, behind what stands there already: bytes, as they are and as hexadecimal digits.
ghost use Rattle.std.specs.Prelude.{◌≡◌, ◌+◌, ◌*◌, ◌≤◌, ◌<◌, length};
ghost use Rattle.text.specs.Text.{Space, Put};
ghost use Rattle.text.specs.Numbers.{hex_digit, hex as hex_of};

use crate::hex::{Case, ten};

// A lent place, and where the text ends that stands at its start.
#[derive(Drop)]
pub struct Text<'a> {
    pub place: &'a mut [u8],
    pub end: usize,
}

fn hex_digit(d: u8, a: u8) -> u8
    requires { (d < 16) × (a ≤ 97) }
    ensures { result ≡ hex_digit a d }
{
    if d < 10 { b'0' + d } else { d - 10 + a }
}

impl Text<'_> {
    #[tactic(auto, unfolding(crate::specs::Text::over))]
    pub fn put(&mut self, text: &[u8])
        requires { Space (length text.now) self.old }
        ensures { Put text.now self.old self.new }
    {
        let behind = self.end + text.len();
        self.place[self.end..behind].copy_from_slice(text);
        self.end = behind;
    }

    // Two digits a byte.
    #[tactic(auto, using(crate::proofs::printing::Appending::over_nothing))]
    pub fn put_hex(&mut self, s: &[u8], case: Case)
        requires { Space (2 * length s.now) self.old }
        ensures appended { Put (hex_of case s.now) self.old self.new }
        ensures value { self.new.end ≡ self.old.end + 2 * length s.now }
    {
        let a = ten(case);
        for &b in s {
            self.put(&[hex_digit(b / 16, a), hex_digit(b % 16, a)]);
        }
    }
}
