// The power in dBm that RegPaConfig shows, by itself and with RegPaDac.
ghost use Rattle.std.specs.Prelude.{◌≡◌, Bool, ◌<◌, pos, ◌-ℤ◌};
ghost use Rattle.page.specs.Lora.{shown, shown_with};

use sheets::Variant;

// RFO of the SX1272 counts from -1 dBm.
fn rfo_shown_sx1272(output: u8) -> i32
    requires { output < 16 }
    ensures { result ≡ (pos output -ℤ pos 1) }
{
    output as i32 - 1
}

// RFO of the SX1276: below 0 dBm the Rust writes a negative byte.
fn rfo_shown_sx1276(value: u8) -> i32
    ensures { result ≡ shown Variant.Sx1276 Bool.false value }
{
    match value {
        0xfc => -4,
        0xfd => -3,
        0xfe => -2,
        0xff => -1,
        _ => (value % 16) as i32,
    }
}

// In dBm: what RegPaConfig shows.
pub fn power_shown(variant: Variant, tx_boost: bool, value: u8) -> i32
    ensures { result ≡ shown variant tx_boost value }
{
    match (variant, tx_boost) {
        (Variant::Sx1272, false) => rfo_shown_sx1272(value % 16),
        (Variant::Sx1272, true) => (value % 16 + 2) as i32,
        (Variant::Sx1276, false) => rfo_shown_sx1276(value),
        (Variant::Sx1276, true) => (value % 32 + 2) as i32,
    }
}

// The SX1272's +20 dBm setting puts 3 dB on what RegPaConfig shows.
pub fn power_shown_with(tx_boost: bool, value: u8, dac: u8) -> i32
    ensures { result ≡ shown_with Variant.Sx1272 tx_boost value dac }
{
    match (tx_boost, dac % 8) {
        (false, _) => rfo_shown_sx1272(value % 16),
        (true, 7) => (value % 16 + 5) as i32,
        (true, _) => (value % 16 + 2) as i32,
    }
}
