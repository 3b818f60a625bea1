// A link's values as text.
#![tactic(auto, using(text::proofs::printing::Appending::texts))]

ghost use Rattle.params.specs.Answers.{link_values};

use crate::values::{Values, put_numbers, put_value};
use params::mod_params::Link;
use text::printing::Text;

impl Values for Link {
    ghost values = { link_values };

    fn put_values(self, out: &mut Text<'_>) {
        let unsigned = [
            self.public_network as u64,
            self.spreading_factor as u64,
            self.bandwidth as u64,
            self.coding_rate as u64,
            self.frequency.0 as u64,
            self.preamble_length as u64,
            self.implicit_header as u64,
            self.crc_on as u64,
            self.iq_inverted as u64,
        ];
        put_numbers(&unsigned, out);
        put_value(self.power, out);
    }
}
