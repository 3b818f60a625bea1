// What each variant makes of a power in dBm: the power that its outputs take, and their registers then.
#![tactic(auto)]

pub mod levels;
pub mod sx1272;
pub mod sx1276;

// PaSelect, for the pin PA_BOOST.
pub const PA_BOOST: u8 = 0x80;
