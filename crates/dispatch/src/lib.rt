// The call that an operation's name and arguments ask.
#![tactic(auto)]

ghost use Rattle.std.specs.Prelude.{◌≡◌};
ghost use Rattle.params.specs.Answers.{tells_done, tells_irq, tells_modulation, tells_packet};
ghost use Rattle.bus.specs.Lent.{Calls};
ghost use Rattle.dispatch.specs.Dispatch.{done as done_by, event as event_asked, modulation_created, packet_created};

use bus::Radio;
use commands::Operation;
use commands::arguments::Arguments;
use params::answers::IrqState;
use params::board::Board;
use params::mod_params::{ModulationParams, PacketParams, RadioError};
use sheets::Variant;
use sx127x::{
    create_modulation_params, create_packet_params, do_cad, do_rx, do_tx, init_lora,
    process_irq_event, reset, set_channel, set_irq_params, set_modulation_params,
    set_packet_params, set_sleep, set_standby, set_tx_continuous_wave_mode,
    set_tx_power_and_ramp_time, set_tx_rx_buffer_base_address,
};

pub fn create_modulation(
    args: Arguments<'_>,
    variant: Variant,
) -> Result<ModulationParams, RadioError>
    ensures { tells_modulation result ≡ modulation_created variant args.entry.parting args.entry.text.now }
{
    create_modulation_params(
        variant,
        args.byte(0),
        args.byte(1),
        args.byte(2),
        args.hertz(3),
    )
}

pub fn create_packet(args: Arguments<'_>) -> Result<PacketParams, RadioError>
    ensures { tells_packet result ≡ packet_created args.entry.parting args.entry.text.now }
{
    create_packet_params(
        args.word(0),
        args.byte(1),
        args.byte(2),
        args.byte(3),
        args.byte(4),
        args.byte(5),
    )
}

pub fn event(args: Arguments<'_>, radio: &mut Radio<'_>) -> Result<Option<IrqState>, RadioError>
    ensures { Calls (event_asked args.entry.parting args.entry.text.now) (tells_irq result) radio.old radio.new }
{
    process_irq_event(radio, args.byte(0), args.byte(1), args.byte(2))
}

// The operations that are done or refused. One that answers otherwise changes nothing. A `match` over the operations: each call takes
// arguments of its own, so that a table of them would be no plainer.
#[tactic(auto, unfolding(crate::specs::Dispatch::done))]
pub fn done(
    o: Operation,
    args: Arguments<'_>,
    board: Board,
    radio: &mut Radio<'_>,
) -> Result<(), RadioError>
    ensures { Calls (done_by o args.entry.parting args.entry.text.now board) (tells_done result) radio.old radio.new }
{
    let v = board.variant;
    match o {
        Operation::Reset => reset(radio),
        Operation::SetStandby => set_standby(radio),
        Operation::SetSleep => set_sleep(radio),
        Operation::DoTx => do_tx(radio),
        Operation::DoCad => do_cad(radio, board.rx_boost),
        Operation::SetTxContinuousWaveMode => set_tx_continuous_wave_mode(radio, v),
        Operation::InitLora => init_lora(radio, board, args.byte(0)),
        Operation::SetTxRxBufferBaseAddress => {
            set_tx_rx_buffer_base_address(radio, args.count(0), args.count(1))
        }
        Operation::SetTxPowerAndRampTime => {
            set_tx_power_and_ramp_time(radio, board, args.power(0), args.byte(1))
        }
        Operation::SetChannel => set_channel(radio, args.hertz(0)),
        Operation::DoRx => do_rx(radio, board.rx_boost, args.byte(0), args.word(1)),
        Operation::SetIrqParams => set_irq_params(radio, args.byte(0), args.byte(1)),
        Operation::SetModulationParams => set_modulation_params(radio, v, args.modulation()),
        Operation::SetPacketParams => set_packet_params(radio, v, args.packet()),
        Operation::Program => link::program(radio, board, args.link()),
        _ => Ok(()),
    }
}
