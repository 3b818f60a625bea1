// The desk tool for the flash tool's files: a pack's registers as Intel HEX, and back to raw bytes.
#![tactic(auto)]

mod convert;
mod words;

use convert::Source;
use desk::arguments;
use desk::options::Stop;
use desk::streams::Streams;
use std::env::Env;
use std::fs::Files;
use std::io::{Input, Write};

const USAGE: &[u8] = b"usage: ihex write|read [-h] [FILE]\n";

const HELP: &[u8] = b"\
Turns a pack's 128 registers into Intel HEX, and Intel HEX into raw bytes. It reads FILE, or standard input,
which is - too: at most 1048575 bytes.
write  takes Intel HEX, 128 raw bytes or hex text, as linkread does (linkread -h), and prints Intel HEX:
       eight data records of 16 bytes from address 0 and an end record, in upper case, each line ended by LF
read   takes Intel HEX and writes the 128 bytes. It takes data records of any length and in any order that set
       each address from 0000 to 007F once, and then an end record, with nothing after its line; digits of
       either letter case, lines ended by LF or CR LF
Of an input that is refused nothing is printed, and standard error tells the first that is wrong:
ihex: FILE: line N: NUMBER NAME: what is wrong. The numbers:
  29  BadHex, a record's form or type, an end record with bytes or an address, or text after it
  30  BadSum, a record's sum
  31  WrongPlace, a byte outside 0000 to 007F, or set by an earlier record too
  32  Incomplete, an address that is not set, or no end record
  26  BadImage, of write: other input that is no image; a wrong character is told with its column
-h  this text
";

fn run(
    rt: &(impl Env + Files + Input),
    streams: &mut Streams<impl Write, impl Write>,
) -> Result<(), Stop> {
    let asked = words::all_words(rt, streams)?;
    let direction = asked.direction;
    if !asked.file {
        let source = Source {
            name: b"-",
            direction,
        };
        source.convert_input(streams, &mut rt.reader());
        return Ok(());
    }
    let mut place = [0u8; arguments::LONGEST];
    if let Some(name) = arguments::word(rt, words::FILE, &mut place) {
        Source { name, direction }.convert_file(rt, streams);
    }
    Ok(())
}

fn main(rt: HostRuntime) {
    let mut streams = Streams {
        output: rt.stdout(),
        error: rt.stderr(),
    };
    if let Err(why) = run(&rt, &mut streams) {
        why.explain(&mut streams, USAGE, HELP);
    }
}
