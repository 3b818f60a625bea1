// What a call appended and answered, as lines.
#![tactic(auto, using(text::proofs::printing::Appending::texts))]

ghost use Rattle.std.specs.Prelude.{◌≤◌, length};
ghost use Rattle.text.specs.Text.{Space};
ghost use Rattle.radiolog.specs.Grown.{Grown};

use bus::Radio;
use bus::log::Log;
use params::mod_params::{PacketStatus, RadioError};
use radiolog_text::log_lines::put_records;
use radiolog_text::refusal_lines::put_refused;
use replies::answers::put_answer;
use replies::values::Values;
use sheets::Variant;
use text::hex::Case;
use text::printing::Text;

// The bytes of a log: the longest call appends 30 records.
const LOG: usize = 96;

fn put_used(log: &[u8; LOG], used: usize, out: &mut Text<'_>)
    requires { Space 288 out.old }
    ensures { Grown 288 out.old out.new }
{
    if let Some(records) = log.get(..used) {
        put_records(records, out);
    }
}

// Makes a call over an image with a log of its own, and puts the records that it appends.
pub fn logged<T, F: FnOnce(&mut Radio<'_>) -> T>(image: &mut [u8], call: F, out: &mut Text<'_>) -> T
    requires callable { F.IsAlwaysCallable call }
    requires room { Space 288 out.old }
    ensures { Grown 288 out.old out.new }
{
    let mut log = [0u8; LOG];
    let mut radio = Radio {
        image,
        log: &mut log,
        used: 0,
    };
    let answer = call(&mut radio);
    let used = radio.used;
    put_used(&log, used, out);
    answer
}

// The same for the one call that only reads the image.
pub fn status(
    image: &[u8],
    variant: Variant,
    out: &mut Text<'_>,
) -> Result<PacketStatus, RadioError>
    requires { Space 288 out.old }
    ensures { Grown 288 out.old out.new }
{
    let mut bytes = [0u8; LOG];
    let mut log = Log {
        bytes: &mut bytes,
        used: 0,
    };
    let answer = sx127x::get_rx_packet_status(image, &mut log, variant);
    let used = log.used;
    put_used(&bytes, used, out);
    answer
}

// Nothing stands behind the records of a call that was done.
pub fn put_done(answer: Result<(), RadioError>, out: &mut Text<'_>)
    requires { Space 97 out.old }
    ensures { Grown 97 out.old out.new }
{
    if let Err(e) = answer {
        put_refused(e, out);
    }
}

pub fn put_told<T: Values>(answer: Result<T, RadioError>, out: &mut Text<'_>)
    requires { Space 240 out.old }
    ensures { Grown 240 out.old out.new }
{
    match answer {
        Ok(told) => {
            out.put(b"=\t");
            put_answer(Ok(told), out);
            out.put(b"\n");
        }
        Err(e) => put_refused(e, out),
    }
}

// The bytes received, or a dash for none.
fn put_packet(bytes: &[u8], out: &mut Text<'_>)
    requires { (length bytes.now ≤ 255) × Space 510 out.old }
    ensures { Grown 510 out.old out.new }
{
    if bytes.is_empty() {
        out.put(b"-");
    } else {
        out.put_hex(bytes, Case::Upper);
    }
}

// A packet is received into the start of a buffer.
pub fn put_received(answer: Result<u8, RadioError>, buffer: &[u8; 255], out: &mut Text<'_>)
    requires { Space 750 out.old }
    ensures { Grown 750 out.old out.new }
{
    match answer {
        Ok(count) => {
            out.put(b"=\t");
            put_answer(Ok(count), out);
            out.put(b"\t");
            put_packet(&buffer[..count as usize], out);
            out.put(b"\n");
        }
        Err(e) => put_refused(e, out),
    }
}
