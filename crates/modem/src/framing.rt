// Packets' framing: `set_packet_params`.
ghost use Rattle.std.specs.Prelude.{◌≡◌, Ok};
ghost use Rattle.params.specs.Answers.{tells_done};
ghost use Rattle.bus.specs.Lent.{Room, Did, Calls};
ghost use Rattle.operations.specs.Modem.{preamble, framing, packet_refusal, packet_steps, set_packet};
ghost use Rattle.operations.specs.Records.{framing_records, packet_records};

use crate::inversion::write_inversion;
use crate::parameter_refusals::packet_named;
use bus::Radio;
use params::mod_params::{PacketParams, RadioError};
use params::radio_kind_params::Register;
use sheets::Variant;
use variants::records::packet_records;
use variants::{sx1272, sx1276};

fn write_preamble(radio: &mut Radio<'_>, preamble_length: u16)
    requires { Room 2 radio.old }
    ensures { Did (preamble preamble_length) radio.old radio.new }
{
    let msb = (preamble_length / 256) as u8;
    let lsb = (preamble_length % 256) as u8;
    radio.write_register(Register::RegPreambleMsb, msb);
    radio.write_register(Register::RegPreambleLsb, lsb);
}

// Header and CRC stand in each variant's own places.
fn write_framing(radio: &mut Radio<'_>, variant: Variant, p: PacketParams)
    requires room { Room (framing_records variant) radio.old }
    requires p_value { packet_refusal p ≡ Ok tt }
    ensures { Did (framing variant p.implicit_header p.crc_on) radio.old radio.new }
{
    match variant {
        Variant::Sx1272 => sx1272::set_packet_params(radio, p),
        Variant::Sx1276 => sx1276::set_packet_params(radio, p),
    }
}

// Part of each caller's code: out of line, the radio would lie in memory, and whole programming take half as long again.
#[inline(always)]
pub fn write_packet(radio: &mut Radio<'_>, variant: Variant, p: PacketParams)
    requires room { Room (packet_records variant) radio.old }
    requires p_value { packet_refusal p ≡ Ok tt }
    ensures { Did (packet_steps variant p) radio.old radio.new }
{
    write_preamble(radio, p.preamble_length);
    write_framing(radio, variant, p);
    write_inversion(radio, p.iq_inverted);
}

pub fn set_packet_params(
    radio: &mut Radio<'_>,
    variant: Variant,
    pkt_params: PacketParams,
) -> Result<(), RadioError>
    ensures { Calls (set_packet variant pkt_params) (tells_done result) radio.old radio.new }
{
    let asked = packet_named(
        pkt_params.implicit_header,
        pkt_params.crc_on,
        pkt_params.iq_inverted,
    );
    radio.admit(asked, packet_records(variant))?;
    write_packet(radio, variant, pkt_params);
    Ok(())
}
