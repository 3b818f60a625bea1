// Packets: a payload sent or received, and its signal.
#![tactic(auto, using(bus::proofs::admit::Calls::rooms))]

ghost use Rattle.std.specs.Prelude.{◌≡◌, ◌≤◌, length};
ghost use Rattle.params.specs.Answers.{tells_payload};
ghost use Rattle.bus.specs.Steps.{buffer_after};
ghost use Rattle.bus.specs.Call.{Meets};
ghost use Rattle.bus.specs.Lent.{Room, Same, Did};
ghost use Rattle.operations.specs.Packets.{start_of, get_payload};
ghost use Rattle.packets.specs.Fetch.{unloading};

use bus::Radio;
use params::mod_params::RadioError;
use params::radio_kind_params::Register;

pub mod payload;
pub mod status;

// What follows the read of the packet's length; the FIFO is left pointing at its start.
fn unload(radio: &mut Radio<'_>, fifo: &[u8], receiving_buffer: &mut [u8], payload_length: u8)
    requires { Room 4 radio.old × (length fifo.now ≡ 256) × (payload_length ≤ length receiving_buffer.old) }
    ensures done { Did (unloading (start_of radio.old.image.now) payload_length) radio.old radio.new }
    ensures receiving_buffer_after { receiving_buffer.new ≡ buffer_after (unloading (start_of radio.old.image.now) payload_length) radio.old.image.now fifo.now receiving_buffer.old }
{
    let fifo_addr = radio.read_register(Register::RegFifoRxCurrentAddr);
    radio.write_register(Register::RegFifoAddrPtr, fifo_addr);
    radio.read_buffer(fifo, receiving_buffer, payload_length);
    radio.write_register(Register::RegFifoAddrPtr, 0x00);
}

// 13 comes after the read that tells it.
pub fn get_rx_payload(
    radio: &mut Radio<'_>,
    fifo: &[u8],
    receiving_buffer: &mut [u8],
) -> Result<u8, RadioError>
    ensures same { Same radio.old radio.new }
    ensures meets { Meets (get_payload radio.old.image.now fifo.now radio.old.log.now receiving_buffer.old radio.old.used) (tells_payload result) radio.new.used radio.new.image.now fifo.now radio.new.log.now receiving_buffer.new }
{
    radio.admit_fifo(fifo, Ok(()), 5)?;
    let payload_length = radio.read_register(Register::RegRxNbBytes);
    let size = payload_length as usize;
    let room = receiving_buffer.len();
    if size > room {
        return Err(RadioError::PayloadSizeMismatch(size, room));
    }
    unload(radio, fifo, receiving_buffer, payload_length);
    Ok(payload_length)
}
