// Modulation and packets: parameters made, and parameters set.
ghost use Rattle.std.specs.Prelude.{[]};
ghost use Rattle.operations.specs.Modem.{create_modulation, create_packet, set_modulation, set_packet};
ghost use Rattle.results.specs.Results.{Tells};
ghost use Rattle.results.specs.Boards.{board_of};
ghost use Rattle.results.specs.Exports.{Exported};
ghost use Rattle.exports.specs.Records.{modulation_of, packet_of};

use bus::Radio;
use params::board::Board;
use params::mod_params::{ModulationParams, PacketParams};
use params::units::Hertz;
use results::answers::told;
use results::board_flags::BoardFlags;

// Values: spreading factor, bandwidth, coding rate, optimize, hertz.
#[unsafe(no_mangle)]
pub extern "C" fn sx127x_create_modulation_params(
    board: u8,
    spreading_factor: u8,
    bandwidth: u8,
    coding_rate: u8,
    frequency_in_hz: u32,
    results: &mut [u64],
) -> i32
    ensures { Tells (create_modulation (board_of board).variant spreading_factor bandwidth coding_rate frequency_in_hz) 0 results.old result results.new }
{
    let board = Board::from(BoardFlags(board));
    let answer = sx127x::create_modulation_params(
        board.variant,
        spreading_factor,
        bandwidth,
        coding_rate,
        frequency_in_hz,
    );
    told(results, 0, answer)
}

// Values: preamble, implicit header, payload length, CRC, IQ.
#[unsafe(no_mangle)]
pub extern "C" fn sx127x_create_packet_params(
    preamble_length: u16,
    implicit_header: u8,
    payload_length: u8,
    crc_on: u8,
    iq_inverted: u8,
    spreading_factor: u8,
    results: &mut [u64],
) -> i32
    ensures { Tells (create_packet preamble_length implicit_header payload_length crc_on iq_inverted spreading_factor) 0 results.old result results.new }
{
    let answer = sx127x::create_packet_params(
        preamble_length,
        implicit_header,
        payload_length,
        crc_on,
        iq_inverted,
        spreading_factor,
    );
    told(results, 0, answer)
}

// The call does not look at a frequency: 0 stands for one.
#[unsafe(no_mangle)]
pub extern "C" fn sx127x_set_modulation_params(
    image: &mut [u8],
    log: &mut [u8],
    used: usize,
    board: u8,
    spreading_factor: u8,
    bandwidth: u8,
    coding_rate: u8,
    low_data_rate_optimize: u8,
    results: &mut [u64],
) -> i32
    ensures { Exported (set_modulation (board_of board).variant (modulation_of spreading_factor bandwidth coding_rate low_data_rate_optimize) image.old log.old used) results.old result image.new [] log.new [] results.new }
{
    let board = Board::from(BoardFlags(board));
    let params = ModulationParams {
        spreading_factor,
        bandwidth,
        coding_rate,
        low_data_rate_optimize,
        frequency: Hertz(0),
    };
    let mut radio = Radio { image, log, used };
    let answer = sx127x::set_modulation_params(&mut radio, board.variant, params);
    told(results, radio.used, answer)
}

// `payload_length` reaches no register here.
#[unsafe(no_mangle)]
pub extern "C" fn sx127x_set_packet_params(
    image: &mut [u8],
    log: &mut [u8],
    used: usize,
    board: u8,
    preamble_length: u16,
    implicit_header: u8,
    payload_length: u8,
    crc_on: u8,
    iq_inverted: u8,
    results: &mut [u64],
) -> i32
    ensures { Exported (set_packet (board_of board).variant (packet_of preamble_length implicit_header payload_length crc_on iq_inverted) image.old log.old used) results.old result image.new [] log.new [] results.new }
{
    let board = Board::from(BoardFlags(board));
    let params = PacketParams {
        preamble_length,
        implicit_header,
        payload_length,
        crc_on,
        iq_inverted,
    };
    let mut radio = Radio { image, log, used };
    let answer = sx127x::set_packet_params(&mut radio, board.variant, params);
    told(results, radio.used, answer)
}
