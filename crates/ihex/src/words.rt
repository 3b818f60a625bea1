// What the command line asks: write or read, and a file.
use desk::options::{Stop, is_option};
use desk::streams::Streams;
use desk::{arguments, options};
use std::env::Env;
use std::io::Write;

// To Intel HEX, or from it.
#[derive(Clone, Copy)]
pub enum Direction {
    Write,
    Read,
}

// What the words so far say.
#[derive(Clone, Copy, Default)]
struct Said {
    direction: Option<Direction>,
    file: bool,
}

#[derive(Clone, Copy)]
pub struct Asked {
    pub direction: Direction,
    pub file: bool,
}

// Where the word stands that names a file: an option stops the tool, so that none is before it.
pub const FILE: usize = 2;

fn wrong(streams: &mut Streams<impl Write, impl Write>, what: &[u8], text: &[u8]) -> Stop {
    options::wrong(streams, b"ihex", what, text)
}

fn with_file(
    streams: &mut Streams<impl Write, impl Write>,
    said: Said,
    word: &[u8],
) -> Result<Said, Stop> {
    if said.file {
        return Err(wrong(streams, word, b" is a second FILE, and one is taken\n"));
    }
    Ok(Said { file: true, ..said })
}

fn with_direction(
    streams: &mut Streams<impl Write, impl Write>,
    said: Said,
    word: &[u8],
) -> Result<Said, Stop> {
    let direction = match word {
        b"write" => Direction::Write,
        b"read" => Direction::Read,
        _ => return Err(wrong(streams, word, b" is neither write nor read\n")),
    };
    Ok(Said {
        direction: Some(direction),
        ..said
    })
}

// The first word that is no option says what to do, and the second names a file.
fn with_word(
    streams: &mut Streams<impl Write, impl Write>,
    said: Said,
    word: &[u8],
) -> Result<Said, Stop> {
    match word {
        b"-h" => Err(Stop::Help),
        _ if is_option(word) => Err(wrong(streams, word, b" is no option\n")),
        _ if said.direction.is_some() => with_file(streams, said, word),
        _ => with_direction(streams, said, word),
    }
}

pub fn all_words(
    rt: &impl Env,
    streams: &mut Streams<impl Write, impl Write>,
) -> Result<Asked, Stop> {
    let said = arguments::all_words(
        rt,
        streams,
        b"ihex",
        Said::default(),
        |streams, said, word| with_word(streams, said, word),
    )?;
    match said.direction {
        Some(direction) => Ok(Asked {
            direction,
            file: said.file,
        }),
        None => Err(wrong(streams, b"say write or read", b"\n")),
    }
}
