// A whole link: programmed, and read back.
ghost use Rattle.std.specs.Prelude.{[]};
ghost use Rattle.operations.specs.Programming.{program_link};
ghost use Rattle.page.specs.Reading.{read_link};
ghost use Rattle.results.specs.Results.{Tells};
ghost use Rattle.results.specs.Boards.{board_of};
ghost use Rattle.results.specs.Exports.{Exported};
ghost use Rattle.exports.specs.Records.{link_of};

use bus::Radio;
use params::board::Board;
use params::mod_params::Link;
use params::units::Hertz;
use results::answers::told;
use results::board_flags::BoardFlags;

// A link of ten numbers.
#[unsafe(no_mangle)]
pub extern "C" fn sx127x_program(
    image: &mut [u8],
    log: &mut [u8],
    used: usize,
    board: u8,
    public_network: u8,
    spreading_factor: u8,
    bandwidth: u8,
    coding_rate: u8,
    frequency_in_hz: u32,
    preamble_length: u16,
    implicit_header: u8,
    crc_on: u8,
    iq_inverted: u8,
    power: i32,
    results: &mut [u64],
) -> i32
    ensures { Exported (program_link (board_of board) (link_of public_network spreading_factor bandwidth coding_rate frequency_in_hz preamble_length implicit_header crc_on iq_inverted power) image.old log.old used) results.old result image.new [] log.new [] results.new }
{
    let board = Board::from(BoardFlags(board));
    let link = Link {
        public_network,
        spreading_factor,
        bandwidth,
        coding_rate,
        frequency: Hertz(frequency_in_hz),
        preamble_length,
        implicit_header,
        crc_on,
        iq_inverted,
        power,
    };
    let mut radio = Radio { image, log, used };
    let answer = link::program(&mut radio, board, link);
    told(results, radio.used, answer)
}

// Values: public network, spreading factor, bandwidth, coding rate, hertz, preamble, implicit header, CRC, IQ, power.
#[unsafe(no_mangle)]
pub extern "C" fn sx127x_read_link(image: &[u8], board: u8, results: &mut [u64]) -> i32
    ensures { Tells (read_link (board_of board) image.now) 0 results.old result results.new }
{
    let board = Board::from(BoardFlags(board));
    let answer = link::read_link(image, board);
    told(results, 0, answer)
}
