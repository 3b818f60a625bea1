// Listening for a packet: `do_rx`, and channel activity detection, `do_cad`.
#![tactic(auto, using(bus::proofs::admit::Calls::rooms))]

ghost use Rattle.std.specs.Prelude.{◌≡◌, Ok};
ghost use Rattle.std.specs.Result.{ForOk, result_and};
ghost use Rattle.sheets.specs.Receive.{window};
ghost use Rattle.params.specs.Answers.{tells_done};
ghost use Rattle.params.specs.Values.{lora_mode};
ghost use Rattle.bus.specs.Lent.{Room, Did, Calls};
ghost use Rattle.operations.specs.Modes.{reception, rx_refusal, rx_window, rx_op_mode, do_rx};

use crate::listening::{write_listening, write_window};
use bus::Radio;
use bus::pins::Antenna;
use params::mod_params::{RadioError, RxMode};
use params::values::LoRaMode;
use refusals::mode_codes::rx_mode;

pub mod detect;
pub mod listening;

// How many symbols a single receive waits for a preamble.
const SX127X_MIN_LORA_SYMB_NUM_TIMEOUT: u16 = 4;

const SX127X_MAX_LORA_SYMB_NUM_TIMEOUT: u16 = 1023;

// A receive mode as the registers want it.
#[derive(Clone, Copy)]
struct Reception {
    symbol_num: u16,
    mode: LoRaMode,
}

// Within what SymbTimeout holds, by the sheets.
fn symbols(n: u16) -> u16
    ensures { result ≡ window n }
{
    n.clamp(
        SX127X_MIN_LORA_SYMB_NUM_TIMEOUT,
        SX127X_MAX_LORA_SYMB_NUM_TIMEOUT,
    )
}

fn received(rx_mode: Result<RxMode, RadioError>) -> Result<Reception, RadioError>
    ensures refused { result_and result (Ok tt) ≡ rx_refusal rx_mode }
    ensures received { ForOk result (λ r. (r.symbol_num ≡ rx_window rx_mode) × (lora_mode r.mode ≡ rx_op_mode rx_mode)) }
{
    match rx_mode? {
        RxMode::DutyCycle => Err(RadioError::DutyCycleUnsupported),
        RxMode::Continuous => Ok(Reception {
            symbol_num: 0,
            mode: LoRaMode::RxContinuous,
        }),
        RxMode::Single(n) => Ok(Reception {
            symbol_num: symbols(n),
            mode: LoRaMode::RxSingle,
        }),
    }
}

fn write_rx(radio: &mut Radio<'_>, rx_boost: bool, rx: Reception)
    requires { Room 8 radio.old }
    ensures { Did (reception rx_boost rx.symbol_num (lora_mode rx.mode)) radio.old radio.new }
{
    radio.set_rf_switch(Antenna::Receive);
    write_window(radio, rx.symbol_num);
    write_listening(radio, rx_boost, rx.mode);
}

pub fn do_rx(radio: &mut Radio<'_>, rx_boost: bool, rx_code: u8, n: u16) -> Result<(), RadioError>
    ensures { Calls (do_rx rx_boost rx_code n) (tells_done result) radio.old radio.new }
{
    let reception = received(rx_mode(rx_code, n));
    radio.admit(reception.and(Ok(())), 8)?;
    write_rx(radio, rx_boost, reception?);
    Ok(())
}
