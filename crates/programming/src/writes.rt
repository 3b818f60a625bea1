// The steps of an accepted link, in the Rust's order: `init_lora`, `set_channel`, `set_modulation_params`,
// `set_packet_params`, then power with the 250 µs ramp.
ghost use Rattle.std.specs.Prelude.{◌++◌, ◌+◌};
ghost use Rattle.bus.specs.Lent.{Room, Did};
ghost use Rattle.operations.specs.Power.{power};
ghost use Rattle.operations.specs.Programming.{link_modulation, link_packet, programming};
ghost use Rattle.operations.specs.Records.{modulation_records, packet_records, power_records, program_records};

use crate::acceptance::AcceptedLink;
use bus::Radio;
use modem::framing::write_packet;
use modem::modulation::write_modulation;
use params::mod_params::{ModulationParams, PacketParams};
use setup::channel::write_channel;
use setup::init::write_init;
use setup::power::write_power;

impl AcceptedLink {
    #[tactic(auto, using(crate::proofs::acceptance::Whole::packet_clear))]
    fn write_framed(self, radio: &mut Radio<'_>)
        requires { Room (packet_records self.board.variant + power_records self.board.variant) radio.old }
        ensures { Did (link_packet self.board self.link ++ power self.board.variant self.board.tx_boost self.link.power 0) radio.old radio.new }
    {
        let packet = PacketParams {
            preamble_length: self.link.preamble_length,
            implicit_header: self.link.implicit_header,
            payload_length: 0,
            crc_on: self.link.crc_on,
            iq_inverted: self.link.iq_inverted,
        };
        write_packet(radio, self.board.variant, packet);
        write_power(radio, self.board, self.link.power, 0);
    }

    #[tactic(auto, using(crate::proofs::acceptance::Whole::modulation_clear))]
    fn write_modulated(self, radio: &mut Radio<'_>)
        requires { Room (modulation_records self.board.variant + (packet_records self.board.variant + power_records self.board.variant)) radio.old }
        ensures { Did (link_modulation self.board self.link ++ (link_packet self.board self.link ++ power self.board.variant self.board.tx_boost self.link.power 0)) radio.old radio.new }
    {
        let modulation = ModulationParams {
            spreading_factor: self.link.spreading_factor,
            bandwidth: self.link.bandwidth,
            coding_rate: self.link.coding_rate,
            low_data_rate_optimize: self.low_data_rate_optimize(),
            frequency: self.link.frequency,
        };
        write_modulation(radio, self.board.variant, modulation);
        self.write_framed(radio);
    }

    pub fn write(self, radio: &mut Radio<'_>)
        requires { Room (program_records self.board.variant self.board.tcxo_used) radio.old }
        ensures { Did (programming self.board self.link) radio.old radio.new }
    {
        write_init(radio, self.board, self.link.public_network);
        write_channel(radio, self.link.frequency);
        self.write_modulated(radio);
    }
}
