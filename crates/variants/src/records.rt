// How many records a call appends, where the variant, the board or an argument decides it.
// A call looks for their room before it starts.
// A `match` in each: one function that is given both counts is no plainer, since it hides which variant has which.
ghost use Rattle.std.specs.Prelude.{◌≡◌};
ghost use Rattle.operations.specs.Records.{init_records, modulation_records, packet_records, power_records, measuring_records, looking_records, program_records};

use params::board::Board;
use sheets::Variant;

pub fn init_records(tcxo_used: bool) -> u8
    ensures { result ≡ init_records tcxo_used }
{
    if tcxo_used { 4 } else { 3 }
}

pub fn modulation_records(variant: Variant) -> u8
    ensures { result ≡ modulation_records variant }
{
    match variant {
        Variant::Sx1272 => 7,
        Variant::Sx1276 => 11,
    }
}

pub fn packet_records(variant: Variant) -> u8
    ensures { result ≡ packet_records variant }
{
    match variant {
        Variant::Sx1272 => 6,
        Variant::Sx1276 => 8,
    }
}

pub fn power_records(variant: Variant) -> u8
    ensures { result ≡ power_records variant }
{
    match variant {
        Variant::Sx1272 => 3,
        Variant::Sx1276 => 4,
    }
}

pub fn status_records(variant: Variant) -> u8
    ensures { result ≡ measuring_records variant }
{
    match variant {
        Variant::Sx1272 => 2,
        Variant::Sx1276 => 5,
    }
}

pub fn event_records(clear: u8) -> u8
    ensures { result ≡ looking_records clear }
{
    match clear {
        0 => 1,
        _ => 2,
    }
}

pub fn program_records(board: Board) -> u8
    ensures { result ≡ program_records board.variant board.tcxo_used }
{
    match board.variant {
        Variant::Sx1272 => if board.tcxo_used { 23 } else { 22 },
        Variant::Sx1276 => if board.tcxo_used { 30 } else { 29 },
    }
}
