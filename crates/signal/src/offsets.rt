// What is added to a received packet's RSSI: by variant, and by the port that the frequency takes.
ghost use Rattle.std.specs.Prelude.{◌≡◌, ◌^◌, ◌<◌};
ghost use Rattle.sheets.specs.Signal.{offset};

use params::units::Steps;
use sheets::Variant;

const SX1272_RSSI_OFFSET: i16 = -139;

const SX1276_RSSI_OFFSET_LF: i16 = -164;

const SX1276_RSSI_OFFSET_HF: i16 = -157;

const SX1276_RF_MID_BAND_THRESH: u32 = 525_000_000;

// The SX1276's port follows from what RegFrf holds, not from the frequency that was asked for.
pub fn rssi_offset(variant: Variant, frf: Steps) -> i16
    requires { frf.0 < 2 ^ 24 }
    ensures { result ≡ offset variant frf.0 }
{
    match variant {
        Variant::Sx1272 => SX1272_RSSI_OFFSET,
        Variant::Sx1276 => {
            let frequency = frf.read_back();
            let hz = frequency.0;
            if hz > SX1276_RF_MID_BAND_THRESH {
                SX1276_RSSI_OFFSET_HF
            } else {
                SX1276_RSSI_OFFSET_LF
            }
        }
    }
}
