// Sleep: `set_sleep`, and `reset`, which ends in it.
ghost use Rattle.params.specs.Answers.{tells_done};
ghost use Rattle.bus.specs.Lent.{Room, Did, Calls};
ghost use Rattle.operations.specs.Modes.{sleep, resetting, set_sleep, reset};

use bus::Radio;
use bus::pins::Antenna;
use params::mod_params::RadioError;
use params::radio_kind_params::Register;
use params::values::LoRaMode;

fn write_sleeping(radio: &mut Radio<'_>)
    requires { Room 2 radio.old }
    ensures { Did sleep radio.old radio.new }
{
    radio.set_rf_switch(Antenna::Off);
    radio.write_sleep(Register::RegOpMode, LoRaMode::Sleep.value());
}

pub fn set_sleep(radio: &mut Radio<'_>) -> Result<(), RadioError>
    ensures { Calls set_sleep (tells_done result) radio.old radio.new }
{
    radio.admit(Ok(()), 2)?;
    write_sleeping(radio);
    Ok(())
}

// Sleep after the reset, so that the LoRa flag is set.
fn write_reset(radio: &mut Radio<'_>)
    requires { Room 3 radio.old }
    ensures { Did resetting radio.old radio.new }
{
    radio.reset();
    write_sleeping(radio);
}

pub fn reset(radio: &mut Radio<'_>) -> Result<(), RadioError>
    ensures { Calls reset (tells_done result) radio.old radio.new }
{
    radio.admit(Ok(()), 3)?;
    write_reset(radio);
    Ok(())
}
