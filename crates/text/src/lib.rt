// Text: fields and words of a line, numbers and bytes as text, in and out.
#![tactic(auto)]

pub mod bytes;
pub mod hex;
pub mod printing;
pub mod put_decimals;
pub mod read_decimals;
pub mod reading;
