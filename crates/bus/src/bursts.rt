// Bursts: bytes that go to the FIFO or come from it, one place after the other.
ghost use Rattle.std.specs.Prelude.{◌≡◌, ◌+◌, ◌%◌, ◌≤◌, ◌++◌, length, drop};
ghost use Rattle.bus.specs.Access.{pointer, moved, laid, taken};

// RegFifoAddrPtr.
const POINTER: usize = 0x0d;

// The place after a place.
fn next(place: u8) -> u8
    ensures { result ≡ (place + 1) % 256 }
{
    place.wrapping_add(1)
}

pub fn burst_write(image: &mut [u8], fifo: &mut [u8], buf: &[u8])
    requires { (length image.old ≡ 128) × (length fifo.old ≡ 256) }
    ensures image_after { image.new ≡ moved (length buf.now) image.old }
    ensures fifo_after { fifo.new ≡ laid buf.now (pointer image.old) fifo.old }
{
    let mut to = image[POINTER];
    for &byte in buf {
        fifo[to as usize] = byte;
        to = next(to);
    }
    image[POINTER] = to;
}

pub fn burst_read(image: &mut [u8], fifo: &[u8], buf: &mut [u8], count: usize)
    requires { (length image.old ≡ 128) × ((length fifo.now ≡ 256) × (count ≤ length buf.old)) }
    ensures image_after { image.new ≡ moved count image.old }
    ensures buf_after { buf.new ≡ taken (pointer image.old) count fifo.now ++ drop count buf.old }
{
    let mut from = image[POINTER];
    for place in &mut buf[..count] {
        *place = fifo[from as usize];
        from = next(from);
    }
    image[POINTER] = from;
}
