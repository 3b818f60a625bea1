// Names and numbers: errors, parameters and answers, registers and their values, boards, hertz and synthesizer steps.
#![tactic(auto)]

pub mod answers;
pub mod board;
pub mod hex_faults;
pub mod irq_masks;
pub mod line_faults;
pub mod mod_params;
pub mod radio_kind_params;
pub mod units;
pub mod values;
