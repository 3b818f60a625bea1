// Transmit power, and the time in which the amplifier comes up: `set_tx_power_and_ramp_time`.
ghost use Rattle.params.specs.Answers.{tells_done};
ghost use Rattle.bus.specs.Lent.{Room, Did, Calls};
ghost use Rattle.operations.specs.Power.{amplifier, power, set_power};
ghost use Rattle.operations.specs.Records.{power_records};

use crate::ramps::ramp_value;
use bus::Radio;
use params::board::Board;
use params::mod_params::RadioError;
use params::radio_kind_params::Register;
use refusals::codes;
use sheets::Variant;
use variants::records::power_records;
use variants::{sx1272, sx1276};

fn set_tx_power(radio: &mut Radio<'_>, board: Board, p_out: i32)
    requires { Room (power_records board.variant) radio.old }
    ensures { Did (amplifier board.variant board.tx_boost p_out) radio.old radio.new }
{
    match board.variant {
        Variant::Sx1272 => sx1272::set_tx_power(radio, p_out, board.tx_boost),
        Variant::Sx1276 => sx1276::set_tx_power(radio, p_out, board.tx_boost),
    }
}

// Part of each caller's code: out of line, the radio would lie in memory, and whole programming take half as long again.
#[inline(always)]
pub fn write_power(radio: &mut Radio<'_>, board: Board, p_out: i32, is_tx_prep: u8)
    requires { Room (power_records board.variant) radio.old }
    ensures { Did (power board.variant board.tx_boost p_out is_tx_prep) radio.old radio.new }
{
    set_tx_power(radio, board, p_out);
    radio.write_register(Register::RegPaRamp, ramp_value(board.variant, is_tx_prep));
}

pub fn set_tx_power_and_ramp_time(
    radio: &mut Radio<'_>,
    board: Board,
    p_out: i32,
    is_tx_prep: u8,
) -> Result<(), RadioError>
    ensures { Calls (set_power board p_out is_tx_prep) (tells_done result) radio.old radio.new }
{
    radio.admit(codes::flag(is_tx_prep), power_records(board.variant))?;
    write_power(radio, board, p_out, is_tx_prep);
    Ok(())
}
