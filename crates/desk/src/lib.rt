// What the desk tools share: the options of their command line, files by name, what is said of a file, and an input read whole.
#![tactic(auto)]

pub mod arguments;
pub mod files;
pub mod options;
pub mod streams;
pub mod whole_input;
