// What each variant does in its own way: its registers, its share of the calls, and the records of a call.
#![tactic(auto)]

pub mod records;
pub mod registers;
pub mod sx1272;
pub mod sx1276;

// RegModemConfig2 without SpreadingFactor, which has the same bits on both variants.
pub const ALL_BUT_SPREADING_FACTOR: u8 = 0x0f;
