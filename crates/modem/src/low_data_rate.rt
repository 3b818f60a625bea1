// Low data rate optimize: whether a symbol lasts so long that the radio wants it.
ghost use Rattle.std.specs.Prelude.{◌≡◌, ◌≤◌, ◌<◌};
ghost use Rattle.sheets.specs.Modem.{long_symbol, optimize};

use sheets::bandwidth_hertz;

// A symbol of more than 16 ms, 2^SF / bandwidth: multiplied out, where the Rust's two divisions make 16 of 16.384.
fn is_long_symbol(spreading_factor: u8, bw_in_hz: u32) -> bool
    requires { (spreading_factor ≤ 12) × (bw_in_hz ≤ 500000) }
    ensures { result ≡ long_symbol spreading_factor bw_in_hz }
{
    1000 * (1u32 << spreading_factor) > 16 * bw_in_hz
}

#[tactic(auto, using(sheets::proofs::Modem::hertz_le), unfolding(sheets::specs::Modem::optimize))]
pub fn low_data_rate_optimize(spreading_factor: u8, bandwidth: u8) -> u8
    requires { (spreading_factor ≤ 12) × (bandwidth < 10) }
    ensures { result ≡ optimize spreading_factor bandwidth }
{
    is_long_symbol(spreading_factor, bandwidth_hertz(bandwidth)) as u8
}
