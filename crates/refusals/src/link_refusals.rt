// Settings of a link that do not go together, each refused in one place.
ghost use Rattle.std.specs.Prelude.{◌≡◌};
ghost use Rattle.refusals.specs.Refusals.{bandwidth_for_frequency, header_for_spreading_factor};

use params::mod_params::RadioError;
use params::units::Hertz;

// 16: 250 or 500 kHz in the lowest band.
pub fn bandwidth_for_frequency(code: u8, frequency: Hertz) -> Result<(), RadioError>
    ensures { result ≡ bandwidth_for_frequency code frequency.0 }
{
    if matches!(code, 8 | 9) && frequency.0 < 400_000_000 {
        Err(RadioError::InvalidBandwidthForFrequency)
    } else {
        Ok(())
    }
}

// 17: spreading factor 6 with an explicit header.
pub fn header_for_spreading_factor(code: u8, implicit_header: u8) -> Result<(), RadioError>
    ensures { result ≡ header_for_spreading_factor code implicit_header }
{
    if code == 6 && implicit_header == 0 {
        Err(RadioError::InvalidSF6ExplicitHeaderRequest)
    } else {
        Ok(())
    }
}
