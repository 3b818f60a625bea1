// radiolog's text: commands in, records out.
#![tactic(auto)]

pub mod command_lines;
pub mod command_words;
pub mod faults;
pub mod log_lines;
pub mod refusal_lines;
