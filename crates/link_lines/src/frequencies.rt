// Frequencies and bandwidths as people write them.
#![tactic(auto, using(text::proofs::printing::Appending::texts), unfolding(crate::specs::Frequencies::megahertz, crate::specs::Frequencies::kilohertz))]

ghost use Rattle.std.specs.Prelude.{◌≡◌, ◌+◌, ◌≤◌};
ghost use Rattle.sheets.specs.Modem.{hertz};
ghost use Rattle.text.specs.Text.{Space, Put};
ghost use Rattle.link_lines.specs.Frequencies.{two_digits, six_digits, megahertz, kilohertz};

use sheets::bandwidth_hertz;
use text::printing::Text;

fn put_two_digits(n: u32, out: &mut Text<'_>)
    requires { Space 2 out.old }
    ensures { Put (two_digits n) out.old out.new }
{
    out.put(&[b'0' + (n / 10 % 10) as u8, b'0' + (n % 10) as u8]);
}

fn put_six_digits(n: u32, out: &mut Text<'_>)
    requires { Space 6 out.old }
    ensures { Put (six_digits n) out.old out.new }
{
    put_two_digits(n / 10_000, out);
    put_two_digits(n / 100, out);
    put_two_digits(n, out);
}

pub fn put_megahertz(hz: u32, out: &mut Text<'_>)
    requires { Space 27 out.old }
    ensures appended { Put (megahertz hz) out.old out.new }
    ensures upper_bound { out.new.end ≤ out.old.end + 27 }
{
    out.put_decimal((hz / 1_000_000) as u64);
    out.put(b".");
    put_six_digits(hz, out);
}

pub fn put_kilohertz(hz: u32, out: &mut Text<'_>)
    requires { Space 23 out.old }
    ensures appended { Put (kilohertz hz) out.old out.new }
    ensures upper_bound { out.new.end ≤ out.old.end + 23 }
{
    out.put_decimal((hz / 1000) as u64);
    if hz % 1000 != 0 {
        out.put(b".");
        put_two_digits(hz / 10, out);
    }
}

// A bandwidth in Hz, 0 where there is none of that number. No Option: the clause promises the 0, and a line shows it.
#[tactic(auto, using(text::proofs::reading::Tests::past), unfolding(sheets::specs::Modem::bandwidths))]
pub fn hertz_of(bw: u8) -> u32
    ensures { result ≡ hertz bw }
{
    if bw < 10 { bandwidth_hertz(bw) } else { 0 }
}
