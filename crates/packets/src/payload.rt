// A payload to send: `set_payload`.
ghost use Rattle.std.specs.Prelude.{◌≡◌, ◌<◌, length};
ghost use Rattle.params.specs.Answers.{tells_done};
ghost use Rattle.bus.specs.Steps.{fifo_after};
ghost use Rattle.bus.specs.Call.{Meets};
ghost use Rattle.bus.specs.Lent.{Room, Same, Did};
ghost use Rattle.operations.specs.Packets.{sending, set_payload};

use bus::Radio;
use params::mod_params::RadioError;
use params::radio_kind_params::Register;

fn write_payload(radio: &mut Radio<'_>, fifo: &mut [u8], payload: &[u8])
    requires { Room 4 radio.old × (length fifo.old ≡ 256) × (length payload.now < 256) }
    ensures done { Did (sending payload.now) radio.old radio.new }
    ensures fifo_after { fifo.new ≡ fifo_after (sending payload.now) radio.old.image.now fifo.old }
{
    let length = payload.len() as u8;
    radio.write_register(Register::RegFifoAddrPtr, 0x00);
    radio.write_register(Register::RegPayloadLength, 0x00);
    radio.write_buffer(fifo, payload);
    radio.write_register(Register::RegPayloadLength, length);
}

pub fn set_payload(radio: &mut Radio<'_>, fifo: &mut [u8], payload: &[u8]) -> Result<(), RadioError>
    ensures same { Same radio.old radio.new }
    ensures meets { Meets (set_payload payload.now radio.old.image.now fifo.old radio.old.log.now radio.old.used) (tells_done result) radio.new.used radio.new.image.now fifo.new radio.new.log.now payload.now }
{
    radio.admit_fifo(fifo, refusals::payload_length(payload.len()), 4)?;
    write_payload(radio, fifo, payload);
    Ok(())
}
