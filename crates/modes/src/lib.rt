// Modes: standby and transmission; sleep and reset; the carrier.
#![tactic(auto, using(bus::proofs::admit::Calls::rooms))]

ghost use Rattle.params.specs.Answers.{tells_done};
ghost use Rattle.bus.specs.Lent.{Room, Did, Calls};
ghost use Rattle.operations.specs.Modes.{standby, transmission, set_standby, do_tx};

use bus::Radio;
use bus::pins::Antenna;
use params::mod_params::RadioError;
use params::radio_kind_params::Register;
use params::values::LoRaMode;

pub mod carrier;
pub mod sleep;

fn write_standby(radio: &mut Radio<'_>)
    requires { Room 2 radio.old }
    ensures { Did standby radio.old radio.new }
{
    radio.write_register(Register::RegOpMode, LoRaMode::Standby.value());
    radio.set_rf_switch(Antenna::Off);
}

pub fn set_standby(radio: &mut Radio<'_>) -> Result<(), RadioError>
    ensures { Calls set_standby (tells_done result) radio.old radio.new }
{
    radio.admit(Ok(()), 2)?;
    write_standby(radio);
    Ok(())
}

fn write_tx(radio: &mut Radio<'_>)
    requires { Room 2 radio.old }
    ensures { Did transmission radio.old radio.new }
{
    radio.set_rf_switch(Antenna::Transmit);
    radio.write_register(Register::RegOpMode, LoRaMode::Tx.value());
}

pub fn do_tx(radio: &mut Radio<'_>) -> Result<(), RadioError>
    ensures { Calls do_tx (tells_done result) radio.old radio.new }
{
    radio.admit(Ok(()), 2)?;
    write_tx(radio);
    Ok(())
}
