// Links: whole programming and the reader under one name. Demand 3 stands in proofs/Demand3.antt.
#![tactic(auto)]

pub use programming::program;
pub use reader::read_link;
