// A call that a line asks: it is done over what the line lends, and its outcome is written as a line.
ghost use Rattle.std.specs.Prelude.{◌≡◌, ◌+◌, ◌≤◌, length};
ghost use Rattle.text.specs.Text.{Space};
ghost use Rattle.calls.specs.Lines.{Within};

use bus::Radio;
use bus::log::Log;
use commands::arguments::Arguments;
use commands::{Operation, operation_named};
use params::board::Board;
use replies::airtime_values::put_airtime;
use replies::answers::{put_answer, put_read};
use replies::left::Left;
use requests::faults::put_fault;
use sheets::Variant;
use text::hex::{Case, read_hex};
use text::printing::Text;
use text::reading::{field, same};

const TAB: u8 = b'\t';

fn flag(line: &[u8], k: usize) -> bool {
    same(field(line, TAB, k), b"1")
}

fn board(line: &[u8]) -> Board {
    let variant = if same(field(line, TAB, 0), b"1272") {
        Variant::Sx1272
    } else {
        Variant::Sx1276
    };
    Board {
        variant,
        tcxo_used: flag(line, 1),
        tx_boost: flag(line, 2),
        rx_boost: flag(line, 3),
    }
}

// Numbers in field k + 1, parted by spaces.
fn numbers(line: &[u8], k: usize) -> Arguments<'_> {
    Arguments {
        text: field(line, TAB, k),
        parting: b' ',
    }
}

// The call that is lent a text alone.
fn report(text: &[u8], out: &mut Text<'_>)
    requires { Space 230 out.old }
    ensures { Within 230 out.old out.new }
{
    let mut totals = [0u64; 10];
    let answer = time_on_air::airtime(text, &mut totals);
    put_airtime(answer, &totals, out);
}

// The call that only reads the registers. Answers how many bytes of the log are used.
fn measure(line: &[u8], image: &[u8], bytes: &mut [u8], used: usize, out: &mut Text<'_>) -> usize
    requires { Space 230 out.old }
    ensures { Within 230 out.old out.new }
{
    let mut log = Log { bytes, used };
    let answer = sx127x::get_rx_packet_status(image, &mut log, board(line).variant);
    put_answer(answer, out);
    log.used
}

// The calls that are lent a radio and no FIFO and no buffer.
fn act_on_registers(o: Operation, line: &[u8], radio: &mut Radio<'_>, out: &mut Text<'_>)
    requires { Space 230 out.old }
    ensures { Within 230 out.old out.new }
{
    let args = numbers(line, 5);
    let board = board(line);
    match o {
        Operation::CreateModulationParams => {
            put_answer(dispatch::create_modulation(args, board.variant), out)
        }
        Operation::CreatePacketParams => put_answer(dispatch::create_packet(args), out),
        Operation::ReadLink => put_answer(link::read_link(radio.image, board), out),
        Operation::ProcessIrqEvent => put_answer(dispatch::event(args, radio), out),
        _ => put_answer(dispatch::done(o, args, board, radio), out),
    }
}

fn act_on_radio(
    o: Operation,
    line: &[u8],
    radio: &mut Radio<'_>,
    fifo: &mut [u8],
    buffer: &mut [u8],
    out: &mut Text<'_>,
)
    requires { Space 230 out.old }
    ensures { Within 230 out.old out.new }
{
    match o {
        Operation::SetPayload => put_answer(sx127x::set_payload(radio, fifo, buffer), out),
        Operation::GetRxPayload => put_answer(sx127x::get_rx_payload(radio, fifo, buffer), out),
        Operation::WriteHex => put_answer(intel_hex::write_hex(radio.image, buffer), out),
        Operation::ReadHex => put_read(intel_hex::read_hex(buffer, radio.image), out),
        Operation::Airtime => report(buffer, out),
        _ => act_on_registers(o, line, radio, out),
    }
}

// What is lent is handed on, and the answer written. Answers how many bytes of the log are used.
// Four slices and no struct of them: the borrow checker lends one field of a `&mut` at a time, and `measure` wants two.
fn act(
    o: Operation,
    line: &[u8],
    image: &mut [u8],
    fifo: &mut [u8],
    buffer: &mut [u8],
    log: &mut [u8],
    out: &mut Text<'_>,
) -> usize
    requires { Space 230 out.old }
    ensures { Within 230 out.old out.new }
{
    let used = numbers(line, 10).count(0);
    match o {
        Operation::GetRxPacketStatus => measure(line, image, log, used, out),
        _ => {
            let mut radio = Radio { image, log, used };
            act_on_radio(o, line, &mut radio, fifo, buffer, out);
            radio.used
        }
    }
}

// The bytes of a field, at the start of a lent place.
fn lend<'a>(text: &[u8], place: &'a mut [u8]) -> &'a mut [u8]
    ensures { length result.now ≤ length place.old }
{
    let n = read_hex(text, Case::Lower, place).unwrap_or(0);
    &mut place[..n]
}

// Does the call that a line asks and writes its outcome's line.
fn run(o: Operation, line: &[u8], out: &mut Text<'_>)
    requires { Space 14596 out.old }
    ensures { out.new.end ≤ length out.old.place.now }
{
    let mut image = [0u8; 1024];
    let mut fifo = [0u8; 1024];
    let mut buffer = [0u8; 4096];
    let mut log = [0u8; 1024];
    let image = lend(field(line, TAB, 6), &mut image);
    let fifo = lend(field(line, TAB, 7), &mut fifo);
    let buffer = lend(field(line, TAB, 8), &mut buffer);
    let log = lend(field(line, TAB, 9), &mut log);
    let used = act(o, line, image, fifo, buffer, log, out);
    let left = Left {
        image,
        fifo,
        buffer,
        log,
        used,
    };
    left.put(out);
}

// Writes the line that answers a line, where there is room for the longest.
pub fn answer(line: &[u8], out: &mut Text<'_>)
    requires { Space 14596 out.old }
    ensures { out.new.end ≤ length out.old.place.now }
{
    match requests::judged(line) {
        Err(fault) => put_fault(fault, out),
        Ok(()) => match operation_named(field(line, TAB, 4)) {
            Some(o) => run(o, line, out),
            None => {}
        },
    }
}
