// The driver for C and Rust: each public call over numbers and lent slices, its answer told by number and results.
// Each call is written out: a function that takes it as a closure has a contract longer than the two lines it spares.
#![tactic(auto)]

pub mod airtime;
pub mod hex_files;
pub mod interrupts;
pub mod links;
pub mod mode_calls;
pub mod packet_calls;
pub mod parameters;
pub mod setup_calls;
