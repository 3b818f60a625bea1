// Setting a radio up: `init_lora`, base addresses, channel, power.
#![tactic(auto, using(bus::proofs::admit::Calls::rooms))]

pub mod bases;
pub mod channel;
pub mod init;
pub mod power;
pub mod ramps;
