// What the SX1276 does in its own way: modulation, framing, transmit power, and a carrier without modulation.
ghost use Rattle.std.specs.Prelude.{◌≤◌};
ghost use Rattle.sheets.specs.Modem.{bandwidth_code};
ghost use Rattle.bus.specs.Lent.{Room, Did};
ghost use Rattle.operations.specs.Modem.{modem, framing};
ghost use Rattle.operations.specs.Power.{amplifier};
ghost use Rattle.operations.specs.Modes.{carrier_test};

use crate::ALL_BUT_SPREADING_FACTOR;
use crate::registers::Sx1276;
use bus::Radio;
use bus::pins::Antenna;
use params::mod_params::{ModulationParams, PacketParams};
use params::radio_kind_params::Register;
use params::values::LoRaMode;
use sheets::Variant;
use tx_power::PA_BOOST;
use tx_power::levels::pa_dac;
use tx_power::sx1276::{ocp, pa_config};

// What stays of a register while a field of it is written: RegModemConfig1 without Bw, CodingRate or
// ImplicitHeaderModeOn, RegModemConfig2 without RxPayloadCrcOn, RegModemConfig3 without LowDataRateOptimize and
// AgcAutoOn.
const ALL_BUT_BW: u8 = 0x0f;

const ALL_BUT_CODING_RATE: u8 = 0xf1;

const ALL_BUT_IMPLICIT_HEADER_MODE_ON: u8 = 0xfe;

pub const ALL_BUT_RX_PAYLOAD_CRC_ON: u8 = 0xfb;

pub const ALL_BUT_LDRO_AND_AGC_AUTO: u8 = 0xf3;

// The carrier's bits, in RegPaConfig, RegOpMode and RegModemConfig2.
const ALL_BUT_PA_SELECT: u8 = 0x7f;

const ACCESS_SHARED_REG: u8 = 0x40;

const TX_CONTINUOUS_MODE: u8 = 0x08;

const ALL_BUT_TX_CONTINUOUS_MODE: u8 = 0xf7;

// A field at a time, as the Rust does it; the optimize flag with AgcAutoOn cleared.
#[tactic(auto, using(sheets::proofs::Modem::code_76))]
pub fn set_modulation_params(radio: &mut Radio<'_>, p: ModulationParams)
    requires room { Room 8 radio.old }
    requires codes { (p.spreading_factor ≤ 12) × (p.bandwidth ≤ 9) × (p.coding_rate ≤ 4) × (p.low_data_rate_optimize ≤ 1) }
    ensures { Did (modem Variant.Sx1276 p.spreading_factor (bandwidth_code Variant.Sx1276 p.bandwidth) p.coding_rate p.low_data_rate_optimize) radio.old radio.new }
{
    let sf = p.spreading_factor * 16;
    let bw = Variant::Sx1276.bandwidth_code(p.bandwidth) * 16;
    let cr = p.coding_rate * 2;
    let ldro = p.low_data_rate_optimize * 8;
    radio.modify_register(Register::RegModemConfig2, ALL_BUT_SPREADING_FACTOR, sf);
    radio.modify_register(Register::RegModemConfig1, ALL_BUT_BW, bw);
    radio.modify_register(Register::RegModemConfig1, ALL_BUT_CODING_RATE, cr);
    radio.modify_register(Register::RegModemConfig3, ALL_BUT_LDRO_AND_AGC_AUTO, ldro);
}

pub fn set_packet_params(radio: &mut Radio<'_>, p: PacketParams)
    requires room { Room 4 radio.old }
    requires flags { (p.implicit_header ≤ 1) × (p.crc_on ≤ 1) }
    ensures { Did (framing Variant.Sx1276 p.implicit_header p.crc_on) radio.old radio.new }
{
    radio.modify_register(
        Register::RegModemConfig1,
        ALL_BUT_IMPLICIT_HEADER_MODE_ON,
        p.implicit_header,
    );
    let crc = p.crc_on * 4;
    radio.modify_register(Register::RegModemConfig2, ALL_BUT_RX_PAYLOAD_CRC_ON, crc);
}

pub fn set_tx_power(radio: &mut Radio<'_>, p_out: i32, tx_boost: bool)
    requires { Room 3 radio.old }
    ensures { Did (amplifier Variant.Sx1276 tx_boost p_out) radio.old radio.new }
{
    let dac = pa_dac(Variant::Sx1276, p_out, tx_boost);
    radio.write_register(Sx1276::REG_PA_DAC, dac);
    radio.write_register(Register::RegOcp, ocp(p_out, tx_boost));
    radio.write_register(Register::RegPaConfig, pa_config(p_out, tx_boost));
}

// The Rust turns the switch to receive, and transmits by PA_BOOST whatever the board.
pub fn set_tx_continuous_wave_mode(radio: &mut Radio<'_>)
    requires { Room 6 radio.old }
    ensures { Did carrier_test radio.old radio.new }
{
    radio.set_rf_switch(Antenna::Receive);
    radio.modify_register(Register::RegPaConfig, ALL_BUT_PA_SELECT, PA_BOOST);
    let mode = LoRaMode::Tx.value() | ACCESS_SHARED_REG;
    radio.write_register(Register::RegOpMode, mode);
    radio.modify_register(
        Register::RegModemConfig2,
        ALL_BUT_TX_CONTINUOUS_MODE,
        TX_CONTINUOUS_MODE,
    );
}
