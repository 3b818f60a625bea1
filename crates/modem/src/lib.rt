// The modem's parameters: made, judged and written.
#![tactic(auto, using(bus::proofs::admit::Calls::rooms))]

pub mod detection;
pub mod framing;
pub mod inversion;
pub mod low_data_rate;
pub mod modulation;
pub mod parameter_refusals;
pub mod parameters;
