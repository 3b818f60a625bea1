// What the SX1272 does in its own way: modulation, framing and transmit power.
ghost use Rattle.std.specs.Prelude.{◌≤◌};
ghost use Rattle.sheets.specs.Modem.{bandwidth_code};
ghost use Rattle.bus.specs.Lent.{Room, Did};
ghost use Rattle.operations.specs.Modem.{modem, framing};
ghost use Rattle.operations.specs.Power.{amplifier};

use crate::ALL_BUT_SPREADING_FACTOR;
use crate::registers::Sx1272;
use bus::Radio;
use params::mod_params::{ModulationParams, PacketParams};
use params::radio_kind_params::Register;
use sheets::Variant;
use tx_power::levels::pa_dac;
use tx_power::sx1272::pa_config;

// RegModemConfig1: ImplicitHeaderModeOn and RxPayloadCrcOn, and the rest of it.
const HEADER_AND_CRC: u8 = 0x06;

const ALL_BUT_HEADER_AND_CRC: u8 = 0xf9;

// The optimize flag stands in RegModemConfig1 here, beside bandwidth and coding rate: one access writes the three.
#[tactic(auto, using(sheets::proofs::Modem::code_72))]
pub fn set_modulation_params(radio: &mut Radio<'_>, p: ModulationParams)
    requires room { Room 4 radio.old }
    requires codes { (p.spreading_factor ≤ 12) × (7 ≤ p.bandwidth) × (p.bandwidth ≤ 9) × (p.coding_rate ≤ 4) × (p.low_data_rate_optimize ≤ 1) }
    ensures { Did (modem Variant.Sx1272 p.spreading_factor (bandwidth_code Variant.Sx1272 p.bandwidth) p.coding_rate p.low_data_rate_optimize) radio.old radio.new }
{
    let bw = Variant::Sx1272.bandwidth_code(p.bandwidth);
    let config_1 = bw * 64 + p.coding_rate * 8 + p.low_data_rate_optimize;
    radio.modify_register(Register::RegModemConfig1, HEADER_AND_CRC, config_1);
    let config_2 = p.spreading_factor * 16;
    radio.modify_register(
        Register::RegModemConfig2,
        ALL_BUT_SPREADING_FACTOR,
        config_2,
    );
}

pub fn set_packet_params(radio: &mut Radio<'_>, p: PacketParams)
    requires room { Room 2 radio.old }
    requires flags { (p.implicit_header ≤ 1) × (p.crc_on ≤ 1) }
    ensures { Did (framing Variant.Sx1272 p.implicit_header p.crc_on) radio.old radio.new }
{
    let config_1 = p.implicit_header * 4 + p.crc_on * 2;
    radio.modify_register(Register::RegModemConfig1, ALL_BUT_HEADER_AND_CRC, config_1);
}

// The Rust leaves the over current protection alone on this variant.
pub fn set_tx_power(radio: &mut Radio<'_>, p_out: i32, tx_boost: bool)
    requires { Room 2 radio.old }
    ensures { Did (amplifier Variant.Sx1272 tx_boost p_out) radio.old radio.new }
{
    let dac = pa_dac(Variant::Sx1272, p_out, tx_boost);
    radio.write_register(Register::RegPaConfig, pa_config(p_out, tx_boost));
    radio.write_register(Sx1272::REG_PA_DAC, dac);
}
