// What refuses an argument: codes that name no case, what a radio has not, settings that do not go together.
#![tactic(auto)]

ghost use Rattle.std.specs.Prelude.{◌≡◌};
ghost use Rattle.refusals.specs.Refusals.{base_addresses, payload_length, carrier};

use params::mod_params::RadioError;
use sheets::Variant;

pub mod availability;
pub mod codes;
pub mod link_refusals;
pub mod mode_codes;

// 11: a base above 255.
pub fn base_addresses(tx: usize, rx: usize) -> Result<(), RadioError>
    ensures { result ≡ base_addresses tx rx }
{
    if tx <= 255 && rx <= 255 {
        Ok(())
    } else {
        Err(RadioError::InvalidBaseAddress(tx, rx))
    }
}

// 12: the Rust's `set_payload_length`.
pub fn payload_length(size: usize) -> Result<(), RadioError>
    ensures { result ≡ payload_length size }
{
    if size <= 255 {
        Ok(())
    } else {
        Err(RadioError::PayloadSizeUnexpected(size))
    }
}

// 25: the SX1272's carrier, where the Rust panics.
pub fn carrier(variant: Variant) -> Result<(), RadioError>
    ensures { result ≡ carrier variant }
{
    match variant {
        Variant::Sx1272 => Err(RadioError::CarrierUnsupported),
        Variant::Sx1276 => Ok(()),
    }
}
