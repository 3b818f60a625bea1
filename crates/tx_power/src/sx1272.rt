// The SX1272's outputs, PA_BOOST and RFO.
ghost use Rattle.std.specs.Prelude.{◌≡◌};
ghost use Rattle.sheets.specs.Power.{pa_config};

use crate::PA_BOOST;
use crate::levels::{clamped_power, level};
use sheets::Variant;

// The +20 dBm setting adds 3 dB, so its powers count from 5 dBm.
pub fn pa_config(p_out: i32, tx_boost: bool) -> u8
    ensures { result ≡ pa_config Variant.Sx1272 tx_boost p_out }
{
    let txp = clamped_power(Variant::Sx1272, p_out, tx_boost);
    if tx_boost {
        match txp {
            18..=20 => PA_BOOST | level(txp, 5, 20),
            _ => PA_BOOST | level(txp, 2, 17),
        }
    } else {
        level(txp, -1, 14)
    }
}
