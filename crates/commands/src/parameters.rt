// Records that arguments say: a modulation, a packet's settings, a link.
ghost use Rattle.std.specs.Prelude.{◌≡◌};
ghost use Rattle.commands.specs.Records.{modulation as modulation_said, packet as packet_said, link as link_said};

use crate::arguments::Arguments;
use params::mod_params::{Link, ModulationParams, PacketParams};
use params::units::Hertz;

impl Arguments<'_> {
    // No argument says a frequency: the call that takes the record does not look at it.
    pub fn modulation(self) -> ModulationParams
        ensures { result ≡ modulation_said self.entry.parting self.entry.text.now }
    {
        ModulationParams {
            spreading_factor: self.byte(0),
            bandwidth: self.byte(1),
            coding_rate: self.byte(2),
            low_data_rate_optimize: self.byte(3),
            frequency: Hertz(0),
        }
    }

    pub fn packet(self) -> PacketParams
        ensures { result ≡ packet_said self.entry.parting self.entry.text.now }
    {
        PacketParams {
            preamble_length: self.word(0),
            implicit_header: self.byte(1),
            payload_length: self.byte(2),
            crc_on: self.byte(3),
            iq_inverted: self.byte(4),
        }
    }

    pub fn link(self) -> Link
        ensures { result ≡ link_said self.entry.parting self.entry.text.now }
    {
        Link {
            public_network: self.byte(0),
            spreading_factor: self.byte(1),
            bandwidth: self.byte(2),
            coding_rate: self.byte(3),
            frequency: Hertz(self.hertz(4)),
            preamble_length: self.word(5),
            implicit_header: self.byte(6),
            crc_on: self.byte(7),
            iq_inverted: self.byte(8),
            power: self.power(9),
        }
    }
}
