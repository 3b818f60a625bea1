// Commands: the operations by short words, or by their own names.
ghost use Rattle.std.specs.Prelude.{◌≡◌};
ghost use Rattle.radiolog_text.specs.CommandWords.{takes_text, command_of};

use commands::{Name, Operation, found, operation_named};
use text::reading::same;

const WORDS: [Name<'static>; 25] = [
    Name(b"reset", Operation::Reset),
    Name(b"standby", Operation::SetStandby),
    Name(b"sleep", Operation::SetSleep),
    Name(b"tx", Operation::DoTx),
    Name(b"rx", Operation::DoRx),
    Name(b"cad", Operation::DoCad),
    Name(b"carrier", Operation::SetTxContinuousWaveMode),
    Name(b"create_packet", Operation::CreatePacketParams),
    Name(b"packet", Operation::SetPacketParams),
    Name(b"payload", Operation::SetPayload),
    Name(b"receive", Operation::GetRxPayload),
    Name(b"status", Operation::GetRxPacketStatus),
    Name(b"irq", Operation::SetIrqParams),
    Name(b"event", Operation::ProcessIrqEvent),
    Name(b"init", Operation::InitLora),
    Name(b"bases", Operation::SetTxRxBufferBaseAddress),
    Name(b"power", Operation::SetTxPowerAndRampTime),
    Name(b"create_modulation", Operation::CreateModulationParams),
    Name(b"modulation", Operation::SetModulationParams),
    Name(b"channel", Operation::SetChannel),
    Name(b"program", Operation::Program),
    Name(b"read", Operation::ReadLink),
    Name(b"airtime", Operation::Airtime),
    Name(b"write_hex", Operation::WriteHex),
    Name(b"read_hex", Operation::ReadHex),
];

// The word of an operation that takes a text: nothing of it goes over the bus.
fn takes_text(w: &[u8]) -> bool
    ensures { result ≡ takes_text w.now }
{
    same(w, b"airtime") || same(w, b"write_hex") || same(w, b"read_hex")
}

#[tactic(auto, unfolding(crate::specs::CommandWords::command_of))]
pub fn command_named(w: &[u8]) -> Option<Operation>
    ensures { result ≡ command_of w.now }
{
    if takes_text(w) {
        return None;
    }
    match found(w, &WORDS) {
        Some(o) => Some(o),
        None => operation_named(w),
    }
}
