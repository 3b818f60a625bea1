// What a receive writes: how long it waits for a preamble, and what it listens with.
ghost use Rattle.params.specs.Values.{lora_mode};
ghost use Rattle.bus.specs.Lent.{Room, Did};
ghost use Rattle.operations.specs.Modes.{waiting, listening};

use crate::detect::lna_gain;
use bus::Radio;
use params::radio_kind_params::Register;
use params::values::LoRaMode;

// RegModemConfig2 without the two high bits of SymbTimeout.
const ALL_BUT_SYMB_TIMEOUT_MSB: u8 = 0xfc;

// The Rust's `set_lora_symbol_num_timeout`: how many symbols a receive waits for a preamble.
pub fn write_window(radio: &mut Radio<'_>, symbol_num: u16)
    requires { Room 3 radio.old }
    ensures { Did (waiting symbol_num) radio.old radio.new }
{
    let symbol_num_msb = (symbol_num / 256 % 4) as u8;
    let symbol_num_lsb = (symbol_num % 256) as u8;
    radio.modify_register(
        Register::RegModemConfig2,
        ALL_BUT_SYMB_TIMEOUT_MSB,
        symbol_num_msb,
    );
    radio.write_register(Register::RegSymbTimeoutLsb, symbol_num_lsb);
}

// A FIFO from its start, and packets of any length; the Rust does not look at the header here.
pub fn write_listening(radio: &mut Radio<'_>, rx_boost: bool, mode: LoRaMode)
    requires { Room 4 radio.old }
    ensures { Did (listening rx_boost (lora_mode mode)) radio.old radio.new }
{
    radio.write_register(Register::RegLna, lna_gain(rx_boost));
    radio.write_register(Register::RegFifoAddrPtr, 0x00);
    radio.write_register(Register::RegPayloadLength, 0xff);
    radio.write_register(Register::RegOpMode, mode.value());
}
