// The FIFO's accesses: a burst, and the record of it.
ghost use Rattle.std.specs.Prelude.{◌≡◌, ◌<◌, ◌≤◌, [], ◌∷◌, length};
ghost use Rattle.bus.specs.Steps.{FifoRead, FifoWrite, fifo_after, buffer_after};
ghost use Rattle.bus.specs.Lent.{Room, Did};

use crate::Radio;
use crate::bursts::{burst_read, burst_write};
use crate::log::Kind;
use params::radio_kind_params::Register;

impl<'a> Radio<'a> {
    // The bytes of buf to the FIFO.
    pub fn write_buffer(&mut self, fifo: &mut [u8], buf: &[u8])
        requires { Room 1 self.old × (length fifo.old ≡ 256) × (length buf.now < 256) }
        ensures done { Did (FifoWrite buf.now ∷ []) self.old self.new }
        ensures fifo_after { fifo.new ≡ fifo_after (FifoWrite buf.now ∷ []) self.old.image.now fifo.old }
    {
        let count = buf.len() as u8;
        burst_write(self.image, fifo, buf);
        self.append(Kind::FifoWrite, Register::RegFifo.read_addr(), count);
    }

    // As many bytes of the FIFO to the front of buf.
    pub fn read_buffer(&mut self, fifo: &[u8], buf: &mut [u8], count: u8)
        requires { Room 1 self.old × (length fifo.now ≡ 256) × (count ≤ length buf.old) }
        ensures done { Did (FifoRead count ∷ []) self.old self.new }
        ensures buf_after { buf.new ≡ buffer_after (FifoRead count ∷ []) self.old.image.now fifo.now buf.old }
    {
        burst_read(self.image, fifo, buf, count as usize);
        self.append(Kind::FifoRead, Register::RegFifo.read_addr(), count);
    }
}
