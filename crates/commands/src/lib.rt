// The operations by their names, and the arguments that each takes.
#![tactic(auto)]

ghost use Rattle.std.specs.Prelude.{◌≡◌};
ghost use Rattle.commands.specs.Operations.{found_among, operation_of};

use text::reading::same;

pub mod arguments;
pub mod parameters;
pub mod signatures;

#[derive(Clone, Copy)]
pub enum Operation {
    InitLora,
    CreateModulationParams,
    CreatePacketParams,
    Reset,
    SetStandby,
    SetSleep,
    SetTxRxBufferBaseAddress,
    SetTxPowerAndRampTime,
    SetModulationParams,
    SetPacketParams,
    SetChannel,
    SetPayload,
    DoTx,
    DoRx,
    GetRxPayload,
    GetRxPacketStatus,
    DoCad,
    SetIrqParams,
    ProcessIrqEvent,
    SetTxContinuousWaveMode,
    Program,
    ReadLink,
    Airtime,
    WriteHex,
    ReadHex,
}

// A word, and the operation that it names.
#[derive(Clone, Copy)]
pub struct Name<'a>(pub &'a [u8], pub Operation);

const NAMES: [Name<'static>; 25] = [
    Name(b"reset", Operation::Reset),
    Name(b"set_standby", Operation::SetStandby),
    Name(b"set_sleep", Operation::SetSleep),
    Name(b"do_tx", Operation::DoTx),
    Name(b"do_rx", Operation::DoRx),
    Name(b"do_cad", Operation::DoCad),
    Name(
        b"set_tx_continuous_wave_mode",
        Operation::SetTxContinuousWaveMode,
    ),
    Name(b"create_packet_params", Operation::CreatePacketParams),
    Name(b"set_packet_params", Operation::SetPacketParams),
    Name(b"set_payload", Operation::SetPayload),
    Name(b"get_rx_payload", Operation::GetRxPayload),
    Name(b"get_rx_packet_status", Operation::GetRxPacketStatus),
    Name(b"set_irq_params", Operation::SetIrqParams),
    Name(b"process_irq_event", Operation::ProcessIrqEvent),
    Name(b"init_lora", Operation::InitLora),
    Name(
        b"set_tx_rx_buffer_base_address",
        Operation::SetTxRxBufferBaseAddress,
    ),
    Name(
        b"set_tx_power_and_ramp_time",
        Operation::SetTxPowerAndRampTime,
    ),
    Name(
        b"create_modulation_params",
        Operation::CreateModulationParams,
    ),
    Name(b"set_modulation_params", Operation::SetModulationParams),
    Name(b"set_channel", Operation::SetChannel),
    Name(b"program", Operation::Program),
    Name(b"read_link", Operation::ReadLink),
    Name(b"airtime", Operation::Airtime),
    Name(b"write_hex", Operation::WriteHex),
    Name(b"read_hex", Operation::ReadHex),
];

// The operation whose word this is.
pub fn found(w: &[u8], names: &[Name<'_>]) -> Option<Operation>
    ensures { result ≡ found_among w.now names.now }
{
    for &Name(word, operation) in names {
        if same(w, word) {
            return Some(operation);
        }
    }
    None
}

pub fn operation_named(w: &[u8]) -> Option<Operation>
    ensures { result ≡ operation_of w.now }
{
    found(w, &NAMES)
}
