// The slope of the RSSI's line, 16/15, worked out in f32 as the Rust does.
ghost use Rattle.std.specs.Prelude.{◌≡◌, ◌*◌, ◌/◌, pos};

// The whole part of 16 p / 15.
pub fn scaled(p: u8) -> i16
    ensures { result ≡ pos (16 * p / 15) }
{
    let x = (p as f32) * 16.0 / 15.0;
    std::num::truncating_f32_to_u64(x) as i16
}
