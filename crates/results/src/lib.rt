// What a C caller says and is told: values as words, the lent results, boards as flags, answers.
#![tactic(auto)]

pub mod answers;
pub mod board_flags;
pub mod values;
pub mod words;

pub use words::put_list;
