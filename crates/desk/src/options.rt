// The options of a desk tool's command line, and whether it names files.
ghost use Rattle.std.specs.Prelude.{◌≡◌, ◌≢◌, ◌↔◌, IsTrue, true, codes, Ok, Err, if◌then◌else◌};
ghost use Rattle.desk.specs.CommandLine.{IsOption};
ghost use Rattle.desk.specs.Held.{Spares};

use crate::streams::{Stream, Streams};
use std::io::Write;

// What a tool is to do with its files; several is true of the second file and all after it. Two flags and no enum:
// clause `file` of `with_word` promises each.
#[derive(Clone, Copy, Default)]
pub struct Options {
    pub table: bool,
    pub aloud: bool,
    pub files: bool,
    pub several: bool,
}

// Why a tool looks at no files: it was asked for help, or a word is wrong, which is told where it is found.
#[derive(Clone, Copy, PartialEq, Eq)]
pub enum Stop {
    Help,
    Wrong,
}

impl Options {
    // Where messages go.
    pub fn voice(self) -> Stream
        ensures { result ≡ (if self.aloud then Stream.Output else Stream.Error) }
    {
        if self.aloud {
            Stream::Output
        } else {
            Stream::Error
        }
    }
}

impl Stop {
    // What a tool says where it stops: how it is called, and all about it where it was asked for help.
    pub fn explain<O: Write, E: Write>(self, streams: &mut Streams<O, E>, usage: &[u8], help: &[u8])
        ensures help { self ≡ Stop.Help
            → Spares O.contents E.contents Stream.Output streams.old streams.new }
        ensures wrong { self ≡ Stop.Wrong
            → Spares O.contents E.contents Stream.Error streams.old streams.new }
    {
        match self {
            Stop::Help => {
                streams.put(Stream::Output, usage);
                streams.put(Stream::Output, help);
            }
            Stop::Wrong => streams.put(Stream::Error, usage),
        }
    }
}

pub fn is_option(word: &[u8]) -> bool
    ensures { IsTrue result ↔ IsOption word.now }
{
    word.len() >= 2 && word[0] == b'-'
}

pub fn wrong<O: Write, E: Write>(
    streams: &mut Streams<O, E>,
    program: &[u8],
    what: &[u8],
    text: &[u8],
) -> Stop
    ensures { result ≡ Stop.Wrong }
{
    streams.put(Stream::Error, program);
    streams.put(Stream::Error, b": ");
    streams.put(Stream::Error, what);
    streams.put(Stream::Error, text);
    Stop::Wrong
}

pub fn too_long<O: Write, E: Write>(streams: &mut Streams<O, E>, program: &[u8]) -> Stop
    ensures { result ≡ Stop.Wrong }
{
    wrong(streams, program, b"a word", b" has more than 4096 bytes\n")
}

// A word that is no option names a file.
pub fn with_word<O: Write, E: Write>(
    streams: &mut Streams<O, E>,
    options: Options,
    program: &[u8],
    word: &[u8],
) -> Result<Options, Stop>
    ensures file { (IsOption word.now → ⊥)
        → result ≡ Ok (record options { files = true; several = options.files }) }
    ensures table { word.now ≡ codes "-t" → result ≡ Ok (record options { table = true }) }
    ensures aloud { word.now ≡ codes "-e" → result ≡ Ok (record options { aloud = true }) }
    ensures help { word.now ≡ codes "-h" → result ≡ Err Stop.Help }
    ensures wrong { IsOption word.now
        → word.now ≢ codes "-t" → word.now ≢ codes "-e" → word.now ≢ codes "-h"
        → result ≡ Err Stop.Wrong }
{
    match word {
        b"-t" => Ok(Options {
            table: true,
            ..options
        }),
        b"-e" => Ok(Options {
            aloud: true,
            ..options
        }),
        b"-h" => Err(Stop::Help),
        _ if is_option(word) => Err(wrong(streams, program, word, b" is no option\n")),
        _ => Ok(Options {
            files: true,
            several: options.files,
            ..options
        }),
    }
}
