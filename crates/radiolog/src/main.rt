// Reads commands from standard input, one a line, does each in turn on one image of zeros, and prints what it sends to
// the radio.
#![tactic(auto)]

mod answers;
mod command;
mod lines;

use board_words::words::{Word, board_word};
use desk::options::Stop;
use desk::streams::Streams;
use desk::{arguments, options};
use params::board::Board;
use std::env::Env;
use std::io::{Input, Write};

const USAGE: &[u8] = b"usage: radiolog [1272|1276] [tcxo] [boost] [rxboost] [-h] <commands\n";

const HELP: &[u8] = b"\
The words say the board; without 1272 or 1276 it is an SX1276.
A line of the input is a command: a word and its arguments, parted by tabs, numbers in decimal.

  init public                        standby            tx
  channel hz                         sleep              rx rxmode n
  modulation sf bw cr optimize       reset              receive
  packet preamble implicit payload_length crc iq        status
  power dbm is_tx_prep               cad                irq mode rxmode
  bases tx rx                        carrier            event mode rxmode clear
  payload hexdigits                  read
  create_modulation sf bw cr hz
  create_packet preamble implicit payload_length crc iq sf
  program public sf bw cr hz preamble implicit crc iq power

The operations' own names, as set_channel, are commands too. A line of the output is a record of
the log (R read, W write, F and G FIFO read and write, S switch, P reset pin, Z write to sleep; address; data),
an answer (=), a refusal (!) with its number and name, or what is wrong with a line (?).
";

// The board that the words so far make, and whether one of them named its chip.
#[derive(Clone, Copy)]
struct Said {
    board: Board,
    chip: bool,
}

fn wrong(streams: &mut Streams<impl Write, impl Write>, what: &[u8], text: &[u8]) -> Stop {
    options::wrong(streams, b"radiolog", what, text)
}

fn with_word(
    streams: &mut Streams<impl Write, impl Write>,
    said: Said,
    word: &[u8],
) -> Result<Said, Stop> {
    if let b"-h" = word {
        return Err(Stop::Help);
    }
    let chip = matches!(board_word(word), Some(Word::Sx1272 | Word::Sx1276));
    if chip && said.chip {
        return Err(wrong(streams, b"two chips", b" are named\n"));
    }
    match board_words::with_word(said.board, word) {
        Some(board) => Ok(Said {
            board,
            chip: chip || said.chip,
        }),
        None => Err(wrong(streams, word, b" is no word of a board\n")),
    }
}

fn board_asked(
    rt: &impl Env,
    streams: &mut Streams<impl Write, impl Write>,
) -> Result<Board, Stop> {
    let none = Said {
        board: board_words::plain(),
        chip: false,
    };
    let said = arguments::all_words(rt, streams, b"radiolog", none, |streams, said, word| {
        with_word(streams, said, word)
    })?;
    Ok(said.board)
}

fn main(rt: HostRuntime) {
    let mut streams = Streams {
        output: rt.stdout(),
        error: rt.stderr(),
    };
    match board_asked(&rt, &mut streams) {
        Ok(board) => lines::answer_input(&mut rt.reader(), &mut streams, board),
        Err(why) => why.explain(&mut streams, USAGE, HELP),
    }
}
