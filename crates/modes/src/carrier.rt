// The carrier test: `set_tx_continuous_wave_mode`, which the Rust has for the SX1276 alone.
ghost use Rattle.params.specs.Answers.{tells_done};
ghost use Rattle.bus.specs.Lent.{Calls};
ghost use Rattle.operations.specs.Modes.{set_carrier};

use bus::Radio;
use params::mod_params::RadioError;
use sheets::Variant;
use variants::sx1276;

pub fn set_tx_continuous_wave_mode(
    radio: &mut Radio<'_>,
    variant: Variant,
) -> Result<(), RadioError>
    ensures { Calls (set_carrier variant) (tells_done result) radio.old radio.new }
{
    radio.admit(refusals::carrier(variant), 6)?;
    sx1276::set_tx_continuous_wave_mode(radio);
    Ok(())
}
