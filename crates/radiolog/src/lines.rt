// Lines of standard input: each is answered in turn, over one image and one FIFO.
#![tactic(auto, using(text::proofs::printing::Appending::texts))]

use crate::command::Device;
use desk::files::write_out;
use desk::streams::{Stream, Streams};
use desk::whole_input::{InputError, read_all, room};
use params::board::Board;
use radiolog_text::command_lines::judged;
use radiolog_text::faults::put_wrong;
use std::io::{Read, Write};
use text::printing::Text;

fn answer_line(
    streams: &mut Streams<impl Write, impl Write>,
    device: &mut Device,
    number: u64,
    line: &[u8],
) -> bool {
    let mut place = [0u8; 2048];
    let mut out = Text {
        place: &mut place,
        end: 0,
    };
    match judged(line) {
        Ok(()) => device.act(line, &mut out),
        Err(misfit) => put_wrong(number, misfit, &mut out),
    }
    let end = out.end;
    write_out(streams, &place[..end], b"radiolog: standard output")
}

fn answer_lines(streams: &mut Streams<impl Write, impl Write>, board: Board, text: &[u8]) {
    let mut device = Device {
        board,
        image: [0; 128],
        fifo: [0; 256],
    };
    for (i, ended) in text.split_inclusive(|&b| b == b'\n').enumerate() {
        let line = ended.strip_suffix(b"\n").unwrap_or(ended);
        if !answer_line(streams, &mut device, i as u64 + 1, line) {
            return;
        }
    }
}

pub fn answer_input(
    from: &mut impl Read,
    streams: &mut Streams<impl Write, impl Write>,
    board: Board,
) {
    let mut buf = room::<65536>();
    match read_all(from, &mut buf) {
        Ok(n) => answer_lines(streams, board, &buf[..n]),
        Err(InputError::More) => {
            streams.put(Stream::Error, b"radiolog: the input is over 65535 bytes\n")
        }
        Err(InputError::Failed(why)) => streams.fail(b"radiolog: standard input", why),
    }
}
