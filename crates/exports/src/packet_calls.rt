// Payloads sent and received, and the signal of a packet.
ghost use Rattle.std.specs.Prelude.{[]};
ghost use Rattle.operations.specs.Packets.{set_payload, get_payload, get_status};
ghost use Rattle.results.specs.Boards.{board_of};
ghost use Rattle.results.specs.Exports.{Exported};

use bus::Radio;
use bus::log::Log;
use params::board::Board;
use results::answers::told;
use results::board_flags::BoardFlags;

// A payload into the FIFO.
#[unsafe(no_mangle)]
pub extern "C" fn sx127x_set_payload(
    image: &mut [u8],
    fifo: &mut [u8],
    log: &mut [u8],
    used: usize,
    payload: &[u8],
    results: &mut [u64],
) -> i32
    ensures { Exported (set_payload payload.now image.old fifo.old log.old used) results.old result image.new fifo.new log.new payload.now results.new }
{
    let mut radio = Radio { image, log, used };
    let answer = sx127x::set_payload(&mut radio, fifo, payload);
    told(results, radio.used, answer)
}

// The bytes received. Value: how many.
#[unsafe(no_mangle)]
pub extern "C" fn sx127x_get_rx_payload(
    image: &mut [u8],
    fifo: &[u8],
    log: &mut [u8],
    used: usize,
    buffer: &mut [u8],
    results: &mut [u64],
) -> i32
    ensures { Exported (get_payload image.old fifo.now log.old buffer.old used) results.old result image.new fifo.now log.new buffer.new results.new }
{
    let mut radio = Radio { image, log, used };
    let answer = sx127x::get_rx_payload(&mut radio, fifo, buffer);
    told(results, radio.used, answer)
}

// Values: RSSI in dBm, SNR in dB.
#[unsafe(no_mangle)]
pub extern "C" fn sx127x_get_rx_packet_status(
    image: &[u8],
    log: &mut [u8],
    used: usize,
    board: u8,
    results: &mut [u64],
) -> i32
    ensures { Exported (get_status (board_of board).variant image.now log.old used) results.old result image.now [] log.new [] results.new }
{
    let board = Board::from(BoardFlags(board));
    let mut log = Log { bytes: log, used };
    let answer = sx127x::get_rx_packet_status(image, &mut log, board.variant);
    told(results, log.used, answer)
}
