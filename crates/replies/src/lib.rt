// The text of an outcome.
#![tactic(auto)]

pub mod airtime_values;
pub mod answers;
pub mod left;
pub mod link_values;
pub mod names;
pub mod values;
