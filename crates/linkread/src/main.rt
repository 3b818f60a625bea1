// The desk tool: shows the link that a pack's registers hold, or says what they are instead. The registers come from
// files or from standard input.
#![tactic(auto)]

mod input;
mod show;
mod words;

use desk::arguments;
use desk::options::Stop;
use desk::streams::Streams;
use input::Source;
use std::env::Env;
use std::fs::Files;
use std::io::{Input, Write};
use words::{Asked, is_file};

const USAGE: &[u8] =
    b"usage: linkread [1272|1276 [tcxo] [boost] [rxboost]] [-t] [-e] [-h] [FILE ..]\n";

const HELP: &[u8] = b"\
Shows the link that a pack's 128 registers hold, read from files or from standard input:
Intel HEX; 128 raw bytes; or hex text, two digits a byte, 0x before a byte or not, white space between or none.
Input that begins with a colon is Intel HEX, but 128 bytes with one that is no hex digit, colon, CR or LF are raw.
Other input of 128 bytes is raw unless each is a hex digit, white space or x; all other input is hex text.
Without 1272 or 1276 every board is tried.
-t  rows of a table, parted by tabs: file, chip, tcxo, boost, and then 0, public, sf, bandwidth in Hz,
    n of the coding rate 4/n, hz, preamble, implicit, crc, iq, power in dBm; or 27, the register that
    rules a link out, and what it holds
-e  messages on standard output, among the rest
-h  this text
";

// Each file is shown in turn; the first is told from the others.
fn show_files(
    rt: &(impl Env + Files + Input),
    streams: &mut Streams<impl Write, impl Write>,
    asked: Asked,
) -> Result<bool, Stop> {
    let show = |streams: &mut Streams<_, _>, first, name: &[u8]| {
        if !is_file(name) {
            return Ok(first);
        }
        Source { name, asked }.show_file(rt, streams, first);
        Ok(false)
    };
    arguments::all_words(rt, streams, b"linkread", true, show)
}

fn run(
    rt: &(impl Env + Files + Input),
    streams: &mut Streams<impl Write, impl Write>,
) -> Result<(), Stop> {
    let asked = words::all_words(rt, streams)?;
    if asked.options.files {
        show_files(rt, streams, asked)?;
    } else {
        Source { name: b"-", asked }.show_input(streams, &mut rt.reader());
    }
    Ok(())
}

fn main(rt: HostRuntime) {
    let mut streams = Streams {
        output: rt.stdout(),
        error: rt.stderr(),
    };
    if let Err(why) = run(&rt, &mut streams) {
        why.explain(&mut streams, USAGE, HELP);
    }
}
