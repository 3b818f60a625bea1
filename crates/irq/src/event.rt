// Interrupts that came: `process_irq_event`.
ghost use Rattle.std.specs.Prelude.{◌≡◌, get_or};
ghost use Rattle.sheets.specs.Registers.{reg_irq_flags};
ghost use Rattle.params.specs.Answers.{tells_irq};
ghost use Rattle.bus.specs.Lent.{Room, Did, Calls};
ghost use Rattle.operations.specs.Interrupts.{looking, process_irq};
ghost use Rattle.operations.specs.Records.{looking_records};

use crate::modes::event_mode;
use crate::outcome::irq_answer;
use bus::Radio;
use params::answers::IrqState;
use params::mod_params::RadioError;
use params::radio_kind_params::Register;
use refusals::codes;
use refusals::mode_codes::radio_mode;
use variants::records::event_records;

// The flags as they were before they are cleared.
// `clear` stays a number, as the C interface has it: one that is neither 0 nor 1 is refused before.
fn read_flags(radio: &mut Radio<'_>, clear: u8) -> u8
    requires { Room (looking_records clear) radio.old }
    ensures value { result ≡ get_or radio.old.image.now reg_irq_flags 0 }
    ensures done { Did (looking clear) radio.old radio.new }
{
    let irq_flags = radio.read_register(Register::RegIrqFlags);
    if clear != 0 {
        radio.write_register(Register::RegIrqFlags, 0xff);
    }
    irq_flags
}

pub fn process_irq_event(
    radio: &mut Radio<'_>,
    mode: u8,
    rx_mode: u8,
    clear: u8,
) -> Result<Option<IrqState>, RadioError>
    ensures { Calls (process_irq mode rx_mode clear) (tells_irq result) radio.old radio.new }
{
    let mode = codes::flag(clear).and(event_mode(radio_mode(mode, rx_mode)));
    radio.admit(mode.and(Ok(())), event_records(clear))?;
    let irq_flags = read_flags(radio, clear);
    irq_answer(mode?, irq_flags)
}
