// The inversion of IQ: the two registers that hold it.
ghost use Rattle.std.specs.Prelude.{◌≡◌};
ghost use Rattle.sheets.specs.Modem.{invert_iq, invert_iq2};
ghost use Rattle.bus.specs.Lent.{Room, Did};
ghost use Rattle.operations.specs.Modem.{inversion};

use bus::Radio;
use params::radio_kind_params::Register;

// RegInvertiq with InvertIQ RX or InvertIQ TX set, beside its reserved bits.
pub const INVERT_IQ_RX: u8 = 0x66;

const INVERT_IQ_TX: u8 = 0x27;

// RegInvertiq2.
const INVERT_IQ2_ON: u8 = 0x19;

const INVERT_IQ2_OFF: u8 = 0x1d;

// RegInvertiq and RegInvertiq2.
#[derive(Clone, Copy)]
pub struct Inversion {
    pub invert_iq: u8,
    pub invert_iq2: u8,
}

impl Inversion {
    // Of the flag.
    pub fn of(iq_inverted: u8) -> Inversion
        ensures iq { result.invert_iq ≡ invert_iq iq_inverted }
        ensures iq2 { result.invert_iq2 ≡ invert_iq2 iq_inverted }
    {
        match iq_inverted {
            0 => Inversion {
                invert_iq: INVERT_IQ_TX,
                invert_iq2: INVERT_IQ2_OFF,
            },
            _ => Inversion {
                invert_iq: INVERT_IQ_RX,
                invert_iq2: INVERT_IQ2_ON,
            },
        }
    }
}

pub fn write_inversion(radio: &mut Radio<'_>, iq_inverted: u8)
    requires { Room 2 radio.old }
    ensures { Did (inversion iq_inverted) radio.old radio.new }
{
    let values = Inversion::of(iq_inverted);
    radio.write_register(Register::RegInvertiq, values.invert_iq);
    radio.write_register(Register::RegInvertiq2, values.invert_iq2);
}
