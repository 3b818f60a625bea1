// What refuses a modulation and a packet, for the calls that take them as for those that make them.
// Codes and flags one by one: a struct is no plainer, since a link has them too, and a call that makes one has none.
ghost use Rattle.std.specs.Prelude.{◌≡◌};
ghost use Rattle.operations.specs.Modem.{modulation_named, modulation_had, packet_named};

use params::mod_params::RadioError;
use refusals::{availability, codes};
use sheets::Variant;

// 8 for each code of a modulation.
pub fn modulation_named(
    spreading_factor: u8,
    bandwidth: u8,
    coding_rate: u8,
) -> Result<(), RadioError>
    ensures { result ≡ modulation_named spreading_factor bandwidth coding_rate }
{
    codes::spreading_factor(spreading_factor)?;
    codes::bandwidth(bandwidth)?;
    codes::coding_rate(coding_rate)
}

// 14 and 15.
pub fn modulation_had(
    variant: Variant,
    spreading_factor: u8,
    bandwidth: u8,
) -> Result<(), RadioError>
    ensures { result ≡ modulation_had variant spreading_factor bandwidth }
{
    availability::spreading_factor_value(spreading_factor)?;
    availability::bandwidth_value(variant, bandwidth)
}

// 8 for each flag of a packet.
pub fn packet_named(implicit_header: u8, crc_on: u8, iq_inverted: u8) -> Result<(), RadioError>
    ensures { result ≡ packet_named implicit_header crc_on iq_inverted }
{
    codes::flag(implicit_header)?;
    codes::flag(crc_on)?;
    codes::flag(iq_inverted)
}
