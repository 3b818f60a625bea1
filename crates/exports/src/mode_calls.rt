// What the radio does: reset, standby, sleep, transmit, receive, channel activity detection, carrier.
ghost use Rattle.std.specs.Prelude.{[]};
ghost use Rattle.operations.specs.Modes.{reset, set_standby, set_sleep, do_tx, do_rx, do_cad, set_carrier};
ghost use Rattle.results.specs.Boards.{board_of};
ghost use Rattle.results.specs.Exports.{Exported};

use bus::Radio;
use params::board::Board;
use results::answers::told;
use results::board_flags::BoardFlags;

// The reset pin, then sleep.
#[unsafe(no_mangle)]
pub extern "C" fn sx127x_reset(
    image: &mut [u8],
    log: &mut [u8],
    used: usize,
    results: &mut [u64],
) -> i32
    ensures { Exported (reset image.old log.old used) results.old result image.new [] log.new [] results.new }
{
    let mut radio = Radio { image, log, used };
    let answer = sx127x::reset(&mut radio);
    told(results, radio.used, answer)
}

// Standby, the antenna off.
#[unsafe(no_mangle)]
pub extern "C" fn sx127x_set_standby(
    image: &mut [u8],
    log: &mut [u8],
    used: usize,
    results: &mut [u64],
) -> i32
    ensures { Exported (set_standby image.old log.old used) results.old result image.new [] log.new [] results.new }
{
    let mut radio = Radio { image, log, used };
    let answer = sx127x::set_standby(&mut radio);
    told(results, radio.used, answer)
}

// Sleep, the antenna off.
#[unsafe(no_mangle)]
pub extern "C" fn sx127x_set_sleep(
    image: &mut [u8],
    log: &mut [u8],
    used: usize,
    results: &mut [u64],
) -> i32
    ensures { Exported (set_sleep image.old log.old used) results.old result image.new [] log.new [] results.new }
{
    let mut radio = Radio { image, log, used };
    let answer = sx127x::set_sleep(&mut radio);
    told(results, radio.used, answer)
}

// Sends what the FIFO holds.
#[unsafe(no_mangle)]
pub extern "C" fn sx127x_do_tx(
    image: &mut [u8],
    log: &mut [u8],
    used: usize,
    results: &mut [u64],
) -> i32
    ensures { Exported (do_tx image.old log.old used) results.old result image.new [] log.new [] results.new }
{
    let mut radio = Radio { image, log, used };
    let answer = sx127x::do_tx(&mut radio);
    told(results, radio.used, answer)
}

// `n` symbols are waited for a preamble, where `rx_mode` is 0.
#[unsafe(no_mangle)]
pub extern "C" fn sx127x_do_rx(
    image: &mut [u8],
    log: &mut [u8],
    used: usize,
    board: u8,
    rx_mode: u8,
    n: u16,
    results: &mut [u64],
) -> i32
    ensures { Exported (do_rx (board_of board).rx_boost rx_mode n image.old log.old used) results.old result image.new [] log.new [] results.new }
{
    let board = Board::from(BoardFlags(board));
    let mut radio = Radio { image, log, used };
    let answer = sx127x::do_rx(&mut radio, board.rx_boost, rx_mode, n);
    told(results, radio.used, answer)
}

// Channel activity detection.
#[unsafe(no_mangle)]
pub extern "C" fn sx127x_do_cad(
    image: &mut [u8],
    log: &mut [u8],
    used: usize,
    board: u8,
    results: &mut [u64],
) -> i32
    ensures { Exported (do_cad (board_of board).rx_boost image.old log.old used) results.old result image.new [] log.new [] results.new }
{
    let board = Board::from(BoardFlags(board));
    let mut radio = Radio { image, log, used };
    let answer = sx127x::do_cad(&mut radio, board.rx_boost);
    told(results, radio.used, answer)
}

// The carrier test, on the SX1276 alone.
#[unsafe(no_mangle)]
pub extern "C" fn sx127x_set_tx_continuous_wave_mode(
    image: &mut [u8],
    log: &mut [u8],
    used: usize,
    board: u8,
    results: &mut [u64],
) -> i32
    ensures { Exported (set_carrier (board_of board).variant image.old log.old used) results.old result image.new [] log.new [] results.new }
{
    let board = Board::from(BoardFlags(board));
    let mut radio = Radio { image, log, used };
    let answer = sx127x::set_tx_continuous_wave_mode(&mut radio, board.variant);
    told(results, radio.used, answer)
}
