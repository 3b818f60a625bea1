// The values that go with what was answered, as text: a space before each.
#![tactic(auto, using(text::proofs::printing::Appending::texts))]

ghost use Rattle.std.specs.Prelude.{List, [], ◌∷◌, ◌+◌, ◌*◌, ◌≤◌, ℤ, pos, length};
ghost use Rattle.params.specs.Errors.{plain};
ghost use Rattle.params.specs.Answers.{event_values, modulation_values, packet_values};
ghost use Rattle.text.specs.Text.{Space, Put};
ghost use Rattle.replies.specs.Answers.{values_text};

use params::answers::IrqState;
use params::mod_params::{ModulationParams, PacketParams, PacketStatus};
use text::printing::Text;

// What a call may answer. The values of the longest, a link, have 211 characters at most.
// Not one trait with that of `results`, which C calls use: the values are words there, and text here.
pub trait Values {
    ghost values: { Self → List ℤ };

    fn put_values(self, out: &mut Text<'_>)
        requires { Space 211 out.old }
        ensures appended { Put (values_text (values self)) out.old out.new }
        ensures upper_bound { out.new.end ≤ out.old.end + 211 };
}

pub fn put_numbers(numbers: &[u64], out: &mut Text<'_>)
    requires { Space (21 * length numbers.now) out.old }
    ensures appended { Put (values_text (plain numbers.now)) out.old out.new }
    ensures upper_bound { out.new.end ≤ out.old.end + 21 * length numbers.now }
{
    for &n in numbers {
        out.put(b" ");
        out.put_decimal(n);
    }
}

// One value with a sign.
pub fn put_value(v: i32, out: &mut Text<'_>)
    requires { Space 22 out.old }
    ensures appended { Put (values_text (v ∷ [])) out.old out.new }
    ensures upper_bound { out.new.end ≤ out.old.end + 22 }
{
    out.put(b" ");
    out.put_signed(v);
}

// Done: there is nothing to tell.
impl Values for () {
    ghost values = { λ done. [] };

    fn put_values(self, out: &mut Text<'_>) {}
}

// The bytes of a payload that was received.
impl Values for u8 {
    ghost values = { λ size. pos size ∷ [] };

    fn put_values(self, out: &mut Text<'_>) {
        put_numbers(&[self as u64], out);
    }
}

// The bytes of a text that was written.
impl Values for usize {
    ghost values = { λ size. pos size ∷ [] };

    fn put_values(self, out: &mut Text<'_>) {
        put_numbers(&[self as u64], out);
    }
}

impl Values for PacketStatus {
    ghost values = { λ s. s.rssi ∷ s.snr ∷ [] };

    fn put_values(self, out: &mut Text<'_>) {
        put_value(self.rssi.into(), out);
        put_value(self.snr.into(), out);
    }
}

impl Values for Option<IrqState> {
    ghost values = { event_values };

    fn put_values(self, out: &mut Text<'_>) {
        match self {
            None => put_numbers(&[0], out),
            Some(IrqState::PreambleReceived) => put_numbers(&[1], out),
            Some(IrqState::Done) => put_numbers(&[2], out),
            Some(IrqState::CadDone(found)) => put_numbers(&[2, found.into()], out),
        }
    }
}

impl Values for ModulationParams {
    ghost values = { modulation_values };

    fn put_values(self, out: &mut Text<'_>) {
        let values = [
            self.spreading_factor as u64,
            self.bandwidth as u64,
            self.coding_rate as u64,
            self.low_data_rate_optimize as u64,
            self.frequency.0 as u64,
        ];
        put_numbers(&values, out);
    }
}

impl Values for PacketParams {
    ghost values = { packet_values };

    fn put_values(self, out: &mut Text<'_>) {
        let values = [
            self.preamble_length as u64,
            self.implicit_header as u64,
            self.payload_length as u64,
            self.crc_on as u64,
            self.iq_inverted as u64,
        ];
        put_numbers(&values, out);
    }
}
