// What an interrupt means, by mode and flag.
ghost use Rattle.std.specs.Prelude.{◌≡◌};
ghost use Rattle.sheets.specs.Interrupts.{Activity.transmitting, Activity.receiving, Activity.detecting, event};
ghost use Rattle.params.specs.Answers.{tells_irq};
ghost use Rattle.refusals.specs.Modes.{activity};
ghost use Rattle.operations.specs.Interrupts.{event_told};

use params::answers::IrqState;
use params::irq_masks::IrqMask;
use params::mod_params::{RadioError, RadioMode};

fn tx_answer(irq_flags: u8) -> Result<Option<IrqState>, RadioError>
    ensures { tells_irq result ≡ event_told (event transmitting irq_flags) }
{
    if !IrqMask::TxDone.is_set_in(irq_flags) {
        return Ok(None);
    }
    Ok(Some(IrqState::Done))
}

fn rx_answer(irq_flags: u8) -> Result<Option<IrqState>, RadioError>
    ensures { tells_irq result ≡ event_told (event receiving irq_flags) }
{
    if IrqMask::RxDone.is_set_in(irq_flags) {
        return Ok(Some(IrqState::Done));
    }
    if IrqMask::RxTimeout.is_set_in(irq_flags) {
        return Err(RadioError::ReceiveTimeout);
    }
    if IrqMask::HeaderValid.is_set_in(irq_flags) {
        return Ok(Some(IrqState::PreambleReceived));
    }
    Ok(None)
}

fn cad_answer(irq_flags: u8) -> Result<Option<IrqState>, RadioError>
    ensures { tells_irq result ≡ event_told (event detecting irq_flags) }
{
    if !IrqMask::CADDone.is_set_in(irq_flags) {
        return Ok(None);
    }
    let detected = IrqMask::CADActivityDetected.is_set_in(irq_flags);
    Ok(Some(IrqState::CadDone(detected)))
}

pub fn irq_answer(mode: RadioMode, irq_flags: u8) -> Result<Option<IrqState>, RadioError>
    ensures { tells_irq result ≡ event_told (event (activity mode) irq_flags) }
{
    match mode {
        RadioMode::Transmit => tx_answer(irq_flags),
        RadioMode::Receive(_) => rx_answer(irq_flags),
        RadioMode::ChannelActivityDetection => cad_answer(irq_flags),
        _ => Ok(None),
    }
}
