// The driver: every operation of the SX1272 and the SX1276 under one name, as the Rust's mod.rs has them.
#![tactic(auto)]

pub use irq::event::process_irq_event;
pub use irq::set_irq_params;
pub use modem::framing::set_packet_params;
pub use modem::modulation::set_modulation_params;
pub use modem::parameters::{create_modulation_params, create_packet_params};
pub use modes::carrier::set_tx_continuous_wave_mode;
pub use modes::sleep::{reset, set_sleep};
pub use modes::{do_tx, set_standby};
pub use packets::get_rx_payload;
pub use packets::payload::set_payload;
pub use packets::status::get_rx_packet_status;
pub use receive::detect::do_cad;
pub use receive::do_rx;
pub use setup::bases::set_tx_rx_buffer_base_address;
pub use setup::channel::set_channel;
pub use setup::init::init_lora;
pub use setup::power::set_tx_power_and_ramp_time;
