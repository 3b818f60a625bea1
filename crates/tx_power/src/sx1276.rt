// The SX1276's outputs, PA_BOOST and RFO.
ghost use Rattle.std.specs.Prelude.{◌≡◌};
ghost use Rattle.sheets.specs.Power.{ocp, pa_config};

use crate::PA_BOOST;
use crate::levels::{clamped_power, level, strong};
use sheets::Variant;

// With over current protection on.
const OCP_TRIM_240MA: u8 = 0x3b;

const OCP_TRIM_100MA: u8 = 0x2b;

const MAX_POWER7_NO_PA_BOOST: u8 = 0x70;

pub fn ocp(p_out: i32, tx_boost: bool) -> u8
    ensures { result ≡ ocp tx_boost p_out }
{
    if strong(Variant::Sx1276, p_out, tx_boost) {
        OCP_TRIM_240MA
    } else {
        OCP_TRIM_100MA
    }
}

// The Rust's way: from 18 dBm on the level spills out of the four power bits, and below 0 dBm the bits of a negative byte,
// 0xfc for -4, set PaSelect too.
pub fn pa_config(p_out: i32, tx_boost: bool) -> u8
    ensures { result ≡ pa_config Variant.Sx1276 tx_boost p_out }
{
    let txp = clamped_power(Variant::Sx1276, p_out, tx_boost);
    if tx_boost {
        PA_BOOST | level(txp, 2, 20)
    } else {
        match txp {
            -4..=-1 => 0xfc | level(txp, -4, -1),
            _ => MAX_POWER7_NO_PA_BOOST | level(txp, 0, 14),
        }
    }
}
