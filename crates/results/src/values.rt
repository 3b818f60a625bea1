// The values that go with an answer: what was answered, or what a refusal tells besides its number.
ghost use Rattle.std.specs.Prelude.{◌≡◌, List, [], ◌∷◌, ℤ, pos};
ghost use Rattle.params.specs.Errors.{values_of};
ghost use Rattle.params.specs.Answers.{event_values, modulation_values, packet_values, link_values};
ghost use Rattle.results.specs.Results.{words, placed};

use crate::words::{put, word};
use params::answers::IrqState;
use params::mod_params::{Link, ModulationParams, PacketParams, PacketStatus, RadioError};

pub trait Values {
    ghost values: { Self → List ℤ };

    // The bytes used, then the values, each at its place in the results.
    fn put(self, results: &mut [u64], used: u64)
        ensures { results.new ≡ placed 0 (used ∷ words (values self)) results.old };
}

// A call that has nothing to tell.
impl Values for () {
    ghost values = { λ done. [] };

    fn put(self, results: &mut [u64], used: u64) {
        put(results, used, &[]);
    }
}

// The bytes of a payload.
impl Values for u8 {
    ghost values = { λ size. pos size ∷ [] };

    fn put(self, results: &mut [u64], used: u64) {
        put(results, used, &[u64::from(self)]);
    }
}

// The bytes of a text.
impl Values for usize {
    ghost values = { λ size. pos size ∷ [] };

    fn put(self, results: &mut [u64], used: u64) {
        put(results, used, &[self as u64]);
    }
}

impl Values for PacketStatus {
    ghost values = { λ s. s.rssi ∷ s.snr ∷ [] };

    fn put(self, results: &mut [u64], used: u64) {
        put(
            results,
            used,
            &[word(self.rssi.into()), word(self.snr.into())],
        );
    }
}

impl Values for Option<IrqState> {
    ghost values = { event_values };

    fn put(self, results: &mut [u64], used: u64) {
        match self {
            None => put(results, used, &[0]),
            Some(IrqState::PreambleReceived) => put(results, used, &[1]),
            Some(IrqState::Done) => put(results, used, &[2]),
            Some(IrqState::CadDone(found)) => put(results, used, &[2, u64::from(found)]),
        }
    }
}

impl Values for ModulationParams {
    ghost values = { modulation_values };

    fn put(self, results: &mut [u64], used: u64) {
        put(
            results,
            used,
            &[
                u64::from(self.spreading_factor),
                u64::from(self.bandwidth),
                u64::from(self.coding_rate),
                u64::from(self.low_data_rate_optimize),
                u64::from(self.frequency.0),
            ],
        );
    }
}

impl Values for PacketParams {
    ghost values = { packet_values };

    fn put(self, results: &mut [u64], used: u64) {
        put(
            results,
            used,
            &[
                u64::from(self.preamble_length),
                u64::from(self.implicit_header),
                u64::from(self.payload_length),
                u64::from(self.crc_on),
                u64::from(self.iq_inverted),
            ],
        );
    }
}

impl Values for Link {
    ghost values = { link_values };

    fn put(self, results: &mut [u64], used: u64) {
        put(
            results,
            used,
            &[
                u64::from(self.public_network),
                u64::from(self.spreading_factor),
                u64::from(self.bandwidth),
                u64::from(self.coding_rate),
                u64::from(self.frequency.0),
                u64::from(self.preamble_length),
                u64::from(self.implicit_header),
                u64::from(self.crc_on),
                u64::from(self.iq_inverted),
                word(self.power.into()),
            ],
        );
    }
}

impl Values for RadioError {
    ghost values = { values_of };

    fn put(self, results: &mut [u64], used: u64) {
        match self {
            RadioError::OpError(code) => put(results, used, &[u64::from(code)]),
            RadioError::InvalidBaseAddress(tx, rx) => put(results, used, &[tx as u64, rx as u64]),
            RadioError::PayloadSizeUnexpected(length) => put(results, used, &[length as u64]),
            RadioError::PayloadSizeMismatch(length, room) => {
                put(results, used, &[length as u64, room as u64])
            }
            _ => put(results, used, &[]),
        }
    }
}
