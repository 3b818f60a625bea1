// What each variant has of its own: the registers that stand elsewhere, and a bit of RegPaRamp.
ghost use Rattle.std.specs.Prelude.{◌≡◌};
ghost use Rattle.sheets.specs.Registers.{reg_tcxo};
ghost use Rattle.sheets.specs.Power.{ramp_bit};
ghost use Rattle.params.specs.Addresses.{address};

use params::radio_kind_params::Register;
use sheets::Variant;

#[derive(Clone, Copy)]
pub struct Sx1272;

impl Sx1272 {
    pub const REG_TCXO: Register = Register::RegTcxoSX1272;

    pub const REG_PA_DAC: Register = Register::RegPaDacSX1272;

    pub const RAMP_BIT: u8 = 0x10;
}

#[derive(Clone, Copy)]
pub struct Sx1276;

impl Sx1276 {
    pub const REG_TCXO: Register = Register::RegTcxoSX1276;

    pub const REG_PA_DAC: Register = Register::RegPaDacSX1276;

    pub const RAMP_BIT: u8 = 0;
}

pub fn reg_tcxo(variant: Variant) -> Register
    ensures { address result ≡ reg_tcxo variant }
{
    match variant {
        Variant::Sx1272 => Sx1272::REG_TCXO,
        Variant::Sx1276 => Sx1276::REG_TCXO,
    }
}

pub fn ramp_bit(variant: Variant) -> u8
    ensures { result ≡ ramp_bit variant }
{
    match variant {
        Variant::Sx1272 => Sx1272::RAMP_BIT,
        Variant::Sx1276 => Sx1276::RAMP_BIT,
    }
}
