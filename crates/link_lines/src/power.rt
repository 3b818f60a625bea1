// The lines of a link's power: in dBm, and the pin that it goes out at.
#![tactic(auto, using(text::proofs::printing::Appending::texts))]

ghost use Rattle.std.specs.Prelude.{◌+◌, ◌≤◌};
ghost use Rattle.text.specs.Text.{Space, Put};
ghost use Rattle.link_lines.specs.PowerLines.{power_line, pin_line};

use text::printing::Text;

pub fn put_power(power: i32, out: &mut Text<'_>)
    requires { Space 50 out.old }
    ensures appended { Put (power_line power) out.old out.new }
    ensures upper_bound { out.new.end ≤ out.old.end + 50 }
{
    out.put(b"power             ");
    out.put_signed(power);
    out.put(b" dBm\n");
}

// Below 0 dBm the Rust sets PaSelect on a board without boost.
pub fn put_pin(boost: bool, pa_config: u8, out: &mut Text<'_>)
    requires { Space 90 out.old }
    ensures appended { Put (pin_line boost pa_config) out.old out.new }
    ensures upper_bound { out.new.end ≤ out.old.end + 90 }
{
    if pa_config < 128 {
        out.put(b"output pin        RFO\n");
    } else if boost {
        out.put(b"output pin        PA_BOOST\n");
    } else {
        out.put(b"output pin        PA_BOOST by the register, though the board has no boost\n");
    }
}
