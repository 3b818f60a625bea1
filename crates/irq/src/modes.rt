// What a mode means for interrupts: which are shut out and cleared when they are set up, which pins tell them, and where an event is refused.
ghost use Rattle.std.specs.Prelude.{◌≡◌, Some, Ok};
ghost use Rattle.std.specs.Result.{ForOk, result_and};
ghost use Rattle.sheets.specs.Interrupts.{shut_out, mapping_keeps, mapping, clearing};
ghost use Rattle.refusals.specs.Modes.{activity};
ghost use Rattle.operations.specs.Interrupts.{event_refusal};

use params::mod_params::{RadioError, RadioMode, RxMode};

// What DIO0 and DIO3 tell, and the mappings of the other pins: the Rust's `DioMapping1Dio0` and `DioMapping1Dio3`.
const DIO0_RX_DONE: u8 = 0x00;

const DIO0_TX_DONE: u8 = 0x40;

const DIO0_CAD_DONE: u8 = 0x80;

const DIO0_OTHER: u8 = 0xc0;

const DIO0_MASK: u8 = 0x3f;

const DIO3_VALID_HEADER: u8 = 0x01;

const DIO3_MASK: u8 = 0xfc;

// A 1 shuts an interrupt out.
pub fn irq_flags_mask(mode: RadioMode) -> u8
    ensures { result ≡ shut_out (activity mode) }
{
    match mode {
        RadioMode::Transmit => 0xf7,
        RadioMode::Receive(_) => 0x0f,
        RadioMode::ChannelActivityDetection => 0xfa,
        _ => 0xff,
    }
}

// The pins whose mapping stays: all but DIO0, and in receive, where DIO3 tells a header, all but these two.
pub fn dio_mapping_1_mask(mode: RadioMode) -> u8
    ensures { result ≡ mapping_keeps (activity mode) }
{
    match mode {
        RadioMode::Receive(_) => DIO0_MASK & DIO3_MASK,
        _ => DIO0_MASK,
    }
}

pub fn dio_mapping_1(mode: RadioMode) -> u8
    ensures { result ≡ mapping (activity mode) }
{
    match mode {
        RadioMode::Transmit => DIO0_TX_DONE,
        RadioMode::Receive(_) => DIO0_RX_DONE | DIO3_VALID_HEADER,
        RadioMode::ChannelActivityDetection => DIO0_CAD_DONE,
        _ => DIO0_OTHER,
    }
}

// A 1 clears a flag, so that the Rust's 0 clears none.
pub fn irq_flags(mode: RadioMode) -> u8
    ensures { result ≡ clearing (activity mode) }
{
    match mode {
        RadioMode::Transmit | RadioMode::Receive(_) | RadioMode::ChannelActivityDetection => 0x00,
        _ => 0xff,
    }
}

// The mode that an event is looked at in: it has to be named, and 9 is told where the Rust would panic.
pub fn event_mode(mode: Result<Option<RadioMode>, RadioError>) -> Result<RadioMode, RadioError>
    ensures refused { result_and result (Ok tt) ≡ event_refusal mode }
    ensures named { ForOk result (λ m. mode ≡ Ok (Some m)) }
{
    match mode? {
        None => Err(RadioError::InvalidConfiguration),
        Some(RadioMode::FrequencySynthesis | RadioMode::Receive(RxMode::DutyCycle)) => {
            Err(RadioError::InvalidRadioMode)
        }
        Some(mode) => Ok(mode),
    }
}
