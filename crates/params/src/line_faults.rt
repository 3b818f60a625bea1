// What may be wrong with a line of a depot's file of sent packets, and the refusal that it gives.
use crate::mod_params::RadioError;

// A field is counted from 0: `Form` is of one that is missing or no number, and of 8, a ninth one.
#[derive(Clone, Copy, PartialEq, Eq)]
pub enum LineFault {
    Form(usize),
    Open,
    Late,
    Id,
    Preamble,
    Length,
    SpreadingFactor,
    Bandwidth,
    CodingRate,
    Header,
    Crc,
    Sf5,
    Sf6Explicit,
}

impl From<LineFault> for RadioError {
    ghost use Rattle.std.specs.Prelude.{◌≡◌};
    ghost use Rattle.params.specs.LineFaults.{error_of};

    ghost from_gives = { λ fault error. error ≡ error_of fault };

    fn from(fault: LineFault) -> RadioError {
        match fault {
            LineFault::SpreadingFactor
            | LineFault::Bandwidth
            | LineFault::CodingRate
            | LineFault::Header
            | LineFault::Crc => RadioError::InvalidConfiguration,
            LineFault::Sf5 => RadioError::UnavailableSpreadingFactor,
            LineFault::Sf6Explicit => RadioError::InvalidSF6ExplicitHeaderRequest,
            LineFault::Form(_)
            | LineFault::Open
            | LineFault::Late
            | LineFault::Id
            | LineFault::Preamble
            | LineFault::Length => RadioError::BadLine,
        }
    }
}
