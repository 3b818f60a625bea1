// The channel: `set_channel`.
ghost use Rattle.params.specs.Answers.{tells_done};
ghost use Rattle.bus.specs.Lent.{Room, Did, Calls};
ghost use Rattle.operations.specs.Setup.{channel, set_channel};

use bus::Radio;
use params::mod_params::RadioError;
use params::radio_kind_params::Register;
use params::units::Hertz;

pub fn write_channel(radio: &mut Radio<'_>, frequency: Hertz)
    requires { Room 3 radio.old }
    ensures { Did (channel frequency.0) radio.old radio.new }
{
    let frf = frequency.steps();
    radio.write_register(Register::RegFrfMsb, frf.frf_msb());
    radio.write_register(Register::RegFrfMid, frf.frf_mid());
    radio.write_register(Register::RegFrfLsb, frf.frf_lsb());
}

pub fn set_channel(radio: &mut Radio<'_>, frequency_in_hz: u32) -> Result<(), RadioError>
    ensures { Calls (set_channel frequency_in_hz) (tells_done result) radio.old radio.new }
{
    radio.admit(Ok(()), 3)?;
    write_channel(radio, Hertz(frequency_in_hz));
    Ok(())
}
