// Channel activity detection: `do_cad`.
ghost use Rattle.std.specs.Prelude.{◌≡◌};
ghost use Rattle.sheets.specs.Receive.{lna};
ghost use Rattle.params.specs.Answers.{tells_done};
ghost use Rattle.bus.specs.Lent.{Room, Did, Calls};
ghost use Rattle.operations.specs.Modes.{detecting, do_cad};

use bus::Radio;
use bus::pins::Antenna;
use params::mod_params::RadioError;
use params::radio_kind_params::Register;
use params::values::{LnaGain, LoRaMode};

pub fn lna_gain(rx_boost: bool) -> u8
    ensures { result ≡ lna rx_boost }
{
    if rx_boost {
        LnaGain::boosted_value()
    } else {
        LnaGain::value()
    }
}

fn write_cad(radio: &mut Radio<'_>, rx_boost: bool)
    requires { Room 3 radio.old }
    ensures { Did (detecting rx_boost) radio.old radio.new }
{
    radio.set_rf_switch(Antenna::Receive);
    radio.write_register(Register::RegLna, lna_gain(rx_boost));
    radio.write_register(Register::RegOpMode, LoRaMode::Cad.value());
}

pub fn do_cad(radio: &mut Radio<'_>, rx_boost: bool) -> Result<(), RadioError>
    ensures { Calls (do_cad rx_boost) (tells_done result) radio.old radio.new }
{
    radio.admit(Ok(()), 3)?;
    write_cad(radio, rx_boost);
    Ok(())
}
