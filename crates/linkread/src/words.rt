// What the command line asks: a board, a form, files.
use board_words::words::{Word, board_word};
use desk::options::{Options, Stop, is_option};
use desk::streams::Streams;
use desk::{arguments, options};
use params::board::Board;
use sheets::Variant;
use std::env::Env;
use std::io::Write;

// What the words so far say; a chip is named once, and what a board has is said of a chip.
#[derive(Clone, Copy, Default)]
struct Said {
    chip: Option<Variant>,
    tcxo_used: bool,
    tx_boost: bool,
    rx_boost: bool,
    options: Options,
}

// Every board is tried where none is named.
#[derive(Clone, Copy)]
pub struct Asked {
    pub board: Option<Board>,
    pub options: Options,
}

// A word that says nothing of a board and is no option names a file.
pub fn is_file(word: &[u8]) -> bool {
    board_word(word).is_none() && !is_option(word)
}

fn wrong(streams: &mut Streams<impl Write, impl Write>, what: &[u8], text: &[u8]) -> Stop {
    options::wrong(streams, b"linkread", what, text)
}

fn with_chip(
    streams: &mut Streams<impl Write, impl Write>,
    said: Said,
    chip: Variant,
) -> Result<Said, Stop> {
    if said.chip.is_some() {
        return Err(wrong(streams, b"two chips", b" are named\n"));
    }
    Ok(Said {
        chip: Some(chip),
        ..said
    })
}

fn with_word(
    streams: &mut Streams<impl Write, impl Write>,
    said: Said,
    word: &[u8],
) -> Result<Said, Stop> {
    match board_word(word) {
        Some(Word::Sx1272) => with_chip(streams, said, Variant::Sx1272),
        Some(Word::Sx1276) => with_chip(streams, said, Variant::Sx1276),
        Some(Word::Tcxo) => Ok(Said {
            tcxo_used: true,
            ..said
        }),
        Some(Word::Boost) => Ok(Said {
            tx_boost: true,
            ..said
        }),
        Some(Word::RxBoost) => Ok(Said {
            rx_boost: true,
            ..said
        }),
        None => Ok(Said {
            options: options::with_word(streams, said.options, b"linkread", word)?,
            ..said
        }),
    }
}

fn board(streams: &mut Streams<impl Write, impl Write>, said: Said) -> Result<Option<Board>, Stop> {
    match said.chip {
        Some(variant) => Ok(Some(Board {
            variant,
            tcxo_used: said.tcxo_used,
            tx_boost: said.tx_boost,
            rx_boost: said.rx_boost,
        })),
        None if said.tcxo_used || said.tx_boost || said.rx_boost => Err(wrong(
            streams,
            b"tcxo, boost and rxboost",
            b" are said of a chip: name 1272 or 1276\n",
        )),
        None => Ok(None),
    }
}

pub fn all_words(
    rt: &impl Env,
    streams: &mut Streams<impl Write, impl Write>,
) -> Result<Asked, Stop> {
    let said = arguments::all_words(
        rt,
        streams,
        b"linkread",
        Said::default(),
        |streams, said, word| with_word(streams, said, word),
    )?;
    Ok(Asked {
        board: board(streams, said)?,
        options: said.options,
    })
}
