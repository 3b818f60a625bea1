// Modes that come in as numbers, turned into cases. A number that names none is 8.
ghost use Rattle.std.specs.Prelude.{◌≡◌};
ghost use Rattle.refusals.specs.Modes.{mode_of, rx_mode_of};

use params::mod_params::{RadioError, RadioMode, RxMode};

// The Rust's `RxMode`, from its number and the symbols of a single receive.
#[tactic(auto, using(sheets::proofs::Lists::get_or_past), unfolding(crate::specs::Modes::rx_mode_of))]
pub fn rx_mode(code: u8, symbols: u16) -> Result<RxMode, RadioError>
    ensures { result ≡ rx_mode_of code symbols }
{
    match code {
        0 => Ok(RxMode::Single(symbols)),
        1 => Ok(RxMode::Continuous),
        2 => Ok(RxMode::DutyCycle),
        3.. => Err(RadioError::InvalidConfiguration),
    }
}

// The Rust's `Option<RadioMode>`: 6 is none; the second code counts in Receive alone, where no symbols are told.
#[tactic(auto, using(sheets::proofs::Lists::get_or_past), unfolding(crate::specs::Modes::mode_of))]
pub fn radio_mode(code: u8, rx_code: u8) -> Result<Option<RadioMode>, RadioError>
    ensures { result ≡ mode_of code rx_code }
{
    match code {
        0 => Ok(Some(RadioMode::Sleep)),
        1 => Ok(Some(RadioMode::Standby)),
        2 => Ok(Some(RadioMode::FrequencySynthesis)),
        3 => Ok(Some(RadioMode::Transmit)),
        4 => Ok(Some(RadioMode::Receive(rx_mode(rx_code, 0)?))),
        5 => Ok(Some(RadioMode::ChannelActivityDetection)),
        6 => Ok(None),
        _ => Err(RadioError::InvalidConfiguration),
    }
}
