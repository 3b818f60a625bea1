// Parameters as a call wants them: `create_modulation_params` and `create_packet_params`.
ghost use Rattle.std.specs.Prelude.{◌≡◌};
ghost use Rattle.params.specs.Answers.{tells_modulation, tells_packet};
ghost use Rattle.operations.specs.Modem.{create_modulation, create_packet};

use crate::low_data_rate::low_data_rate_optimize;
use crate::parameter_refusals::{modulation_had, modulation_named, packet_named};
use params::mod_params::{ModulationParams, PacketParams, RadioError};
use params::units::Hertz;
use refusals::{codes, link_refusals};
use sheets::Variant;

pub fn create_modulation_params(
    variant: Variant,
    spreading_factor: u8,
    bandwidth: u8,
    coding_rate: u8,
    frequency_in_hz: u32,
) -> Result<ModulationParams, RadioError>
    ensures { tells_modulation result ≡ create_modulation variant spreading_factor bandwidth coding_rate frequency_in_hz }
{
    let frequency = Hertz(frequency_in_hz);
    modulation_named(spreading_factor, bandwidth, coding_rate)?;
    modulation_had(variant, spreading_factor, bandwidth)?;
    link_refusals::bandwidth_for_frequency(bandwidth, frequency)?;
    Ok(ModulationParams {
        spreading_factor,
        bandwidth,
        coding_rate,
        low_data_rate_optimize: low_data_rate_optimize(spreading_factor, bandwidth),
        frequency,
    })
}

pub fn create_packet_params(
    preamble_length: u16,
    implicit_header: u8,
    payload_length: u8,
    crc_on: u8,
    iq_inverted: u8,
    spreading_factor: u8,
) -> Result<PacketParams, RadioError>
    ensures { tells_packet result ≡ create_packet preamble_length implicit_header payload_length crc_on iq_inverted spreading_factor }
{
    packet_named(implicit_header, crc_on, iq_inverted)?;
    codes::spreading_factor(spreading_factor)?;
    link_refusals::header_for_spreading_factor(spreading_factor, implicit_header)?;
    Ok(PacketParams {
        preamble_length,
        implicit_header,
        payload_length,
        crc_on,
        iq_inverted,
    })
}
