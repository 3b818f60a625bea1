// What a radio has not: a spreading factor, a bandwidth, a frequency; each refused in one place.
ghost use Rattle.std.specs.Prelude.{◌≡◌};
ghost use Rattle.refusals.specs.Refusals.{spreading_factor_value, bandwidth_value, frequency_range};

use params::mod_params::RadioError;
use params::units::Hertz;
use sheets::{NO_CODE, Variant};

// 14: spreading factor 5, which no SX127x has.
pub fn spreading_factor_value(code: u8) -> Result<(), RadioError>
    ensures { result ≡ spreading_factor_value code }
{
    match code {
        5 => Err(RadioError::UnavailableSpreadingFactor),
        _ => Ok(()),
    }
}

// 15: a bandwidth that the variant has not.
pub fn bandwidth_value(variant: Variant, code: u8) -> Result<(), RadioError>
    ensures { result ≡ bandwidth_value variant code }
{
    if code > 9 {
        return Err(RadioError::UnavailableBandwidth);
    }
    let value = variant.bandwidth_code(code);
    if value == NO_CODE {
        return Err(RadioError::UnavailableBandwidth);
    }
    Ok(())
}

// 23: a frequency whose count of steps RegFrf cannot hold.
pub fn frequency_range(frequency: Hertz) -> Result<(), RadioError>
    ensures { result ≡ frequency_range frequency.0 }
{
    if frequency.0 < 1_024_000_000 {
        Ok(())
    } else {
        Err(RadioError::FrequencyOutOfRange)
    }
}
