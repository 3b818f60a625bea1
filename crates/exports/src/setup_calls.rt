// Setting up: the network, the bases, the channel and the power.
ghost use Rattle.std.specs.Prelude.{[]};
ghost use Rattle.operations.specs.Setup.{init_lora, set_bases, set_channel};
ghost use Rattle.operations.specs.Power.{set_power};
ghost use Rattle.results.specs.Boards.{board_of};
ghost use Rattle.results.specs.Exports.{Exported};

use bus::Radio;
use params::board::Board;
use results::answers::told;
use results::board_flags::BoardFlags;

// `public_network` 1 or 0.
#[unsafe(no_mangle)]
pub extern "C" fn sx127x_init_lora(
    image: &mut [u8],
    log: &mut [u8],
    used: usize,
    board: u8,
    public_network: u8,
    results: &mut [u64],
) -> i32
    ensures { Exported (init_lora (board_of board) public_network image.old log.old used) results.old result image.new [] log.new [] results.new }
{
    let board = Board::from(BoardFlags(board));
    let mut radio = Radio { image, log, used };
    let answer = sx127x::init_lora(&mut radio, board, public_network);
    told(results, radio.used, answer)
}

// Both bases become 0, whatever was asked: the Rust's way.
#[unsafe(no_mangle)]
pub extern "C" fn sx127x_set_tx_rx_buffer_base_address(
    image: &mut [u8],
    log: &mut [u8],
    used: usize,
    tx_base_addr: usize,
    rx_base_addr: usize,
    results: &mut [u64],
) -> i32
    ensures { Exported (set_bases tx_base_addr rx_base_addr image.old log.old used) results.old result image.new [] log.new [] results.new }
{
    let mut radio = Radio { image, log, used };
    let answer = sx127x::set_tx_rx_buffer_base_address(&mut radio, tx_base_addr, rx_base_addr);
    told(results, radio.used, answer)
}

// A frequency in hertz.
#[unsafe(no_mangle)]
pub extern "C" fn sx127x_set_channel(
    image: &mut [u8],
    log: &mut [u8],
    used: usize,
    frequency_in_hz: u32,
    results: &mut [u64],
) -> i32
    ensures { Exported (set_channel frequency_in_hz image.old log.old used) results.old result image.new [] log.new [] results.new }
{
    let mut radio = Radio { image, log, used };
    let answer = sx127x::set_channel(&mut radio, frequency_in_hz);
    told(results, radio.used, answer)
}

// A power in dBm; the ramp is shorter where `is_tx_prep` is 1.
#[unsafe(no_mangle)]
pub extern "C" fn sx127x_set_tx_power_and_ramp_time(
    image: &mut [u8],
    log: &mut [u8],
    used: usize,
    board: u8,
    power: i32,
    is_tx_prep: u8,
    results: &mut [u64],
) -> i32
    ensures { Exported (set_power (board_of board) power is_tx_prep image.old log.old used) results.old result image.new [] log.new [] results.new }
{
    let board = Board::from(BoardFlags(board));
    let mut radio = Radio { image, log, used };
    let answer = sx127x::set_tx_power_and_ramp_time(&mut radio, board, power, is_tx_prep);
    told(results, radio.used, answer)
}
