// The line of a link's frequency: in MHz, and as a count of steps with the bytes of RegFrf.
#![tactic(auto, using(text::proofs::printing::Appending::texts))]

ghost use Rattle.std.specs.Prelude.{◌+◌, ◌≤◌};
ghost use Rattle.text.specs.Text.{Space, Put};
ghost use Rattle.link_lines.specs.FrequencyLines.{step_text, frequency_line};

use crate::frequencies::put_megahertz;
use crate::numerals::{put_bytes, put_counted};
use params::units::Hertz;
use text::printing::Text;

fn put_step(hz: Hertz, out: &mut Text<'_>)
    requires { Space 70 out.old }
    ensures appended { Put (step_text hz.0) out.old out.new }
    ensures upper_bound { out.new.end ≤ out.old.end + 70 }
{
    let count = hz.steps();
    put_counted(b" MHz (step ", count.0 as u64, b", registers ", out);
    put_bytes(count.frf_msb(), count.frf_mid(), count.frf_lsb(), out);
    out.put(b")\n");
}

pub fn put_frequency(hz: Hertz, out: &mut Text<'_>)
    requires { Space 120 out.old }
    ensures appended { Put (frequency_line hz.0) out.old out.new }
    ensures upper_bound { out.new.end ≤ out.old.end + 120 }
{
    out.put(b"frequency         ");
    put_megahertz(hz.0, out);
    put_step(hz, out);
}
