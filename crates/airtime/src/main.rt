// The desk tool for depots: the time on air of a file's packets, added up for each bandwidth, or the first line that
// is bad.
#![tactic(auto)]

mod input;
mod show;
mod texts;

use desk::options::{Options, Stop, is_option};
use desk::streams::Streams;
use desk::{arguments, options};
use show::Source;
use std::env::Env;
use std::fs::Files;
use std::io::{Input, Write};

const USAGE: &[u8] = b"usage: airtime [-t] [-e] [-h] [FILE ..]\n";

const HELP: &[u8] = b"\
Adds up the time on air of a depot's sent packets, read from files or from standard input, which is - too.
A line of the input is a packet, at most 50000 in a file: eight numbers, parted by single tabs,
digits alone, no leading 0; each line ends with LF.
  1  pack id             0 to 4294967295
  2  spreading factor    5 to 12 (5 is refused, and 6 with an explicit header)
  3  bandwidth code      0 to 9: 7.81, 10.42, 15.63, 20.83, 31.25, 41.67, 62.5, 125, 250, 500 kHz
  4  coding rate         1 to 4: 4/5, 4/6, 4/7, 4/8
  5  preamble length     0 to 65535, in symbols
  6  payload length      0 to 255, in bytes
  7  header flag         0 explicit, 1 implicit
  8  CRC flag            0 off, 1 on
Ten lines are printed: the total of each bandwidth code, 0 to 9, in microseconds, rounded up once.
Of several files each one's stand under its name. A file with a bad line has no totals; the first bad
line is told on standard error: airtime: FILE: line N: NUMBER NAME: what is wrong with it. The numbers:
  28  BadLine, its form, its end, a line too many, or field 1, 5 or 6 out of its range
   8  InvalidConfiguration, field 2, 3, 4, 7 or 8 out of its range
  14  UnavailableSpreadingFactor, SF5
  17  InvalidSF6ExplicitHeaderRequest, SF6 with an explicit header
-t  a row for each file, parted by tabs: file, 0 and the ten totals; or file, number, line
-e  messages on standard output, among the rest
-h  this text
";

fn all_words(
    rt: &impl Env,
    streams: &mut Streams<impl Write, impl Write>,
) -> Result<Options, Stop> {
    arguments::all_words(
        rt,
        streams,
        b"airtime",
        Options::default(),
        |streams, options, word| options::with_word(streams, options, b"airtime", word),
    )
}

// Each file is shown in turn; the first of which something is shown is told from the others.
fn show_files(
    rt: &(impl Env + Files + Input),
    streams: &mut Streams<impl Write, impl Write>,
    options: Options,
) -> Result<bool, Stop> {
    let show = |streams: &mut Streams<_, _>, first, name: &[u8]| {
        if is_option(name) {
            return Ok(first);
        }
        let source = Source {
            name,
            options,
            first,
        };
        Ok(source.show_file(rt, streams))
    };
    arguments::all_words(rt, streams, b"airtime", true, show)
}

fn run(
    rt: &(impl Env + Files + Input),
    streams: &mut Streams<impl Write, impl Write>,
) -> Result<(), Stop> {
    let options = all_words(rt, streams)?;
    if options.files {
        show_files(rt, streams, options)?;
        return Ok(());
    }
    let source = Source {
        name: b"-",
        options,
        first: true,
    };
    source.show_input(streams, &mut rt.reader());
    Ok(())
}

fn main(rt: HostRuntime) {
    let mut streams = Streams {
        output: rt.stdout(),
        error: rt.stderr(),
    };
    if let Err(why) = run(&rt, &mut streams) {
        why.explain(&mut streams, USAGE, HELP);
    }
}
