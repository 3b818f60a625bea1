// Interrupts: what is set up for a mode, and what an event is.
#![tactic(auto, using(bus::proofs::admit::Calls::rooms))]

ghost use Rattle.params.specs.Answers.{tells_done};
ghost use Rattle.refusals.specs.Modes.{activity};
ghost use Rattle.bus.specs.Lent.{Room, Did, Calls};
ghost use Rattle.operations.specs.Interrupts.{preparing, set_irq};

use crate::modes::{dio_mapping_1, dio_mapping_1_mask, irq_flags, irq_flags_mask};
use bus::Radio;
use params::mod_params::{RadioError, RadioMode};
use params::radio_kind_params::Register;
use refusals::mode_codes::radio_mode;

pub mod event;
pub mod modes;
pub mod outcome;

fn write_irq_params(radio: &mut Radio<'_>, mode: RadioMode)
    requires { Room 4 radio.old }
    ensures { Did (preparing (activity mode)) radio.old radio.new }
{
    radio.write_register(Register::RegIrqFlagsMask, irq_flags_mask(mode));
    radio.modify_register(
        Register::RegDioMapping1,
        dio_mapping_1_mask(mode),
        dio_mapping_1(mode),
    );
    radio.write_register(Register::RegIrqFlags, irq_flags(mode));
}

pub fn set_irq_params(radio: &mut Radio<'_>, mode: u8, rx_mode: u8) -> Result<(), RadioError>
    ensures { Calls (set_irq mode rx_mode) (tells_done result) radio.old radio.new }
{
    let mode = radio_mode(mode, rx_mode);
    radio.admit(mode.and(Ok(())), 4)?;
    // Without a mode interrupts are those of Sleep: the Rust's last arm has both.
    write_irq_params(radio, mode?.unwrap_or(RadioMode::Sleep));
    Ok(())
}
