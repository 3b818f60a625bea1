// Transmit power in dBm, as both variants treat it: held to an output's range, counted from the least of one, and the +20 dBm setting.
ghost use Rattle.std.specs.Prelude.{◌≡◌, pos, ◌+ℤ◌, ◌≤ℤ◌};
ghost use Rattle.sheets.specs.Power.{clamped, strong, pa_dac};
ghost use Rattle.tx_power.specs.Ranges.{bounded, level};

use sheets::Variant;

const PA_DAC_20DBM_ON: u8 = 0x87;

const PA_DAC_20DBM_OFF: u8 = 0x84;

// By hand: the library's `clamp` wants a range that is none where the least is above the most, and what was built with `p.min(most)` in
// the second test's place answered -1 for clamp(-4, -4, -1).
pub fn clamp(p: i32, least: i32, most: i32) -> i32
    ensures { result ≡ bounded least most p }
{
    if p < least {
        return least;
    }
    if p > most {
        return most;
    }
    p
}

// How many dB the power, held to a range, lies above the least of it.
pub fn level(p: i32, least: i32, most: i32) -> u8
    requires { (least ≤ℤ most) × (most ≤ℤ (least +ℤ pos 255)) }
    ensures { result ≡ level least most p }
{
    let txp = clamp(p, least, most);
    (txp - least) as u8
}

// The power that an output takes, in dBm: PA_BOOST has 2 to 20, RFO -1 to 14 on the SX1272 and -4 to 14 on the SX1276.
pub fn clamped_power(variant: Variant, p_out: i32, tx_boost: bool) -> i32
    ensures { result ≡ clamped variant tx_boost p_out }
{
    if tx_boost {
        return clamp(p_out, 2, 20);
    }
    match variant {
        Variant::Sx1272 => clamp(p_out, -1, 14),
        Variant::Sx1276 => clamp(p_out, -4, 14),
    }
}

// Above 17 dBm, which PA_BOOST alone has, the amplifier wants its +20 dBm setting.
pub fn strong(variant: Variant, p_out: i32, tx_boost: bool) -> bool
    ensures { result ≡ strong tx_boost (clamped variant tx_boost p_out) }
{
    let txp = clamped_power(variant, p_out, tx_boost);
    tx_boost && matches!(txp, 18..=20)
}

// RegPaDac, which is the same on both variants.
pub fn pa_dac(variant: Variant, p_out: i32, tx_boost: bool) -> u8
    ensures { result ≡ pa_dac variant tx_boost p_out }
{
    if strong(variant, p_out, tx_boost) {
        PA_DAC_20DBM_ON
    } else {
        PA_DAC_20DBM_OFF
    }
}
