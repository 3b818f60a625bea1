// What calls tell besides a record or a number: an event, and why a file or a text is refused.
use crate::hex_faults::HexFault;
use crate::line_faults::LineFault;
use crate::mod_params::RadioError;

// `process_irq_event`: the Rust's `IrqState`; channel activity detection that is done tells whether it found activity.
#[derive(Clone, Copy, PartialEq, Eq)]
pub enum IrqState {
    PreambleReceived,
    Done,
    CadDone(bool),
}

// `airtime`: the first bad line of a file, with its number from 1.
#[derive(Clone, Copy, PartialEq, Eq)]
pub struct BadLine {
    pub fault: LineFault,
    pub line: u64,
}

// `read_hex`: the first record that is bad, or what the text lacks, with its line from 1; or no image was lent.
#[derive(Clone, Copy, PartialEq, Eq)]
pub enum HexError {
    Bad(HexFault, usize),
    Refused(RadioError),
}

impl From<BadLine> for RadioError {
    ghost use Rattle.std.specs.Prelude.{◌≡◌};
    ghost use Rattle.params.specs.LineFaults.{error_of};

    ghost from_gives = { λ bad error. error ≡ error_of bad.fault };

    fn from(bad: BadLine) -> RadioError {
        bad.fault.into()
    }
}

impl From<HexError> for RadioError {
    ghost use Rattle.std.specs.Prelude.{◌≡◌};
    ghost use Rattle.params.specs.HexFaults.{refusal_of};

    ghost from_gives = { λ why error. error ≡ refusal_of why };

    fn from(why: HexError) -> RadioError {
        match why {
            HexError::Bad(fault, _) => fault.into(),
            HexError::Refused(error) => error,
        }
    }
}
