// The time in which the amplifier comes up, and RegPaRamp for it.
ghost use Rattle.std.specs.Prelude.{◌≡◌};
ghost use Rattle.sheets.specs.Power.{pa_ramp};
ghost use Rattle.params.specs.Values as value;
ghost use Rattle.operations.specs.Power.{ramp_code};

use params::values::RampTime;
use sheets::Variant;
use variants::registers::ramp_bit;

// Fast before a transmission, slow when a link is programmed.
fn ramp_time(is_tx_prep: u8) -> RampTime
    ensures { value.ramp_code result ≡ ramp_code is_tx_prep }
{
    match is_tx_prep {
        0 => RampTime::Ramp250Us,
        _ => RampTime::Ramp40Us,
    }
}

pub fn ramp_value(variant: Variant, is_tx_prep: u8) -> u8
    ensures { result ≡ pa_ramp variant (ramp_code is_tx_prep) }
{
    ramp_bit(variant) + ramp_time(is_tx_prep).value()
}
