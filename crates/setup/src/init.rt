// Setting up: `init_lora`.
ghost use Rattle.std.specs.Prelude.{◌≡◌};
ghost use Rattle.sheets.specs.Modem.{sync_word};
ghost use Rattle.params.specs.Answers.{tells_done};
ghost use Rattle.bus.specs.Lent.{Room, Did, Calls};
ghost use Rattle.operations.specs.Setup.{oscillator, initialization, init_lora};
ghost use Rattle.operations.specs.Records.{oscillator_records, init_records};

use crate::bases::write_bases;
use bus::Radio;
use params::board::Board;
use params::mod_params::RadioError;
use params::radio_kind_params::Register;
use refusals::codes;
use variants::records::init_records;
use variants::registers::reg_tcxo;

pub const LORA_MAC_PUBLIC_SYNCWORD: u8 = 0x34;

const LORA_MAC_PRIVATE_SYNCWORD: u8 = 0x12;

pub const TCXO_FOR_OSCILLATOR: u8 = 0x10;

// The oscillator's register is the variant's own.
fn write_tcxo(radio: &mut Radio<'_>, board: Board)
    requires { Room (oscillator_records board.tcxo_used) radio.old }
    ensures { Did (oscillator board.variant board.tcxo_used) radio.old radio.new }
{
    if board.tcxo_used {
        radio.write_register(reg_tcxo(board.variant), TCXO_FOR_OSCILLATOR);
    }
}

pub fn syncword(is_public_network: u8) -> u8
    ensures { result ≡ sync_word is_public_network }
{
    match is_public_network {
        0 => LORA_MAC_PRIVATE_SYNCWORD,
        _ => LORA_MAC_PUBLIC_SYNCWORD,
    }
}

pub fn write_init(radio: &mut Radio<'_>, board: Board, is_public_network: u8)
    requires { Room (init_records board.tcxo_used) radio.old }
    ensures { Did (initialization board is_public_network) radio.old radio.new }
{
    write_tcxo(radio, board);
    radio.write_register(Register::RegSyncWord, syncword(is_public_network));
    write_bases(radio);
}

pub fn init_lora(
    radio: &mut Radio<'_>,
    board: Board,
    is_public_network: u8,
) -> Result<(), RadioError>
    ensures { Calls (init_lora board is_public_network) (tells_done result) radio.old radio.new }
{
    radio.admit(
        codes::flag(is_public_network),
        init_records(board.tcxo_used),
    )?;
    write_init(radio, board, is_public_network);
    Ok(())
}
