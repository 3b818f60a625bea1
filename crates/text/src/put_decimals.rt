// Writing decimal numbers into a lent place, behind what stands there already.
ghost use Rattle.std.specs.Prelude.{◌≡◌, ◌+◌, ◌≤◌, ◌<◌, nat_abs, length, drop};
ghost use Rattle.text.specs.Text.{Space, Put};
ghost use Rattle.text.specs.Numbers.{decimal, signed};

use crate::printing::Text;

// The decimal digits of n at the end of a place of 20, the last one first. Answers where they begin.
fn spell(n: u64, place: &mut [u8]) -> usize
    requires { length place.old ≡ 20 }
    ensures upper_bound { (result < 20) × (length place.new ≡ 20) }
    ensures place_after { drop result place.new ≡ decimal n }
{
    let mut from = 19;
    let mut rest = n;
    // No loop over an index: it ends with the number's first digit.
    while rest > 9 {
        place[from] = b'0' + (rest % 10) as u8;
        rest = rest / 10;
        from -= 1;
    }
    place[from] = b'0' + rest as u8;
    from
}

impl Text<'_> {
    // At most 20 digits.
    pub fn put_decimal(&mut self, n: u64)
        requires { Space 20 self.old }
        ensures appended { Put (decimal n) self.old self.new }
        ensures upper_bound { self.new.end ≤ self.old.end + 20 }
    {
        let mut digits = [0u8; 20];
        let from = spell(n, &mut digits);
        self.put(&digits[from..]);
    }

    // A number below zero has a minus sign in front.
    pub fn put_signed(&mut self, n: i32)
        requires { Space 21 self.old }
        ensures appended { Put (signed n) self.old self.new }
        ensures upper_bound { self.new.end ≤ self.old.end + 21 }
    {
        if n < 0 {
            self.put(b"-");
        }
        self.put_decimal(n.unsigned_abs() as u64);
    }
}
