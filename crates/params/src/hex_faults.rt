// What may be wrong with a text of Intel HEX, and the refusal that it gives.
use crate::mod_params::RadioError;

// `Kind` has the record's type, `Sum` the sum that would be right; an address is of the byte that is wrong, or of the first that is
// not there.
#[derive(Clone, Copy, PartialEq, Eq)]
pub enum HexFault {
    Open,
    Form,
    Count,
    Kind(u8),
    EndHolds,
    After,
    Sum(u8),
    Outside(usize),
    Twice(usize),
    NoEnd,
    Unset(usize),
}

impl From<HexFault> for RadioError {
    ghost use Rattle.std.specs.Prelude.{◌≡◌};
    ghost use Rattle.params.specs.HexFaults.{hex_error_of};

    ghost from_gives = { λ fault error. error ≡ hex_error_of fault };

    fn from(fault: HexFault) -> RadioError {
        match fault {
            HexFault::Open
            | HexFault::Form
            | HexFault::Count
            | HexFault::Kind(_)
            | HexFault::EndHolds
            | HexFault::After => RadioError::BadHex,
            HexFault::Sum(_) => RadioError::BadSum,
            HexFault::Outside(_) | HexFault::Twice(_) => RadioError::WrongPlace,
            HexFault::NoEnd | HexFault::Unset(_) => RadioError::Incomplete,
        }
    }
}
