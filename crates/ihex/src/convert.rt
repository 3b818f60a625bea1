// An input read whole and written in the other form, or what is wrong with it.
#![tactic(auto, using(text::proofs::printing::Appending::texts))]

use crate::words::Direction;
use desk::files;
use desk::options::Options;
use desk::streams::{Stream, Streams};
use desk::whole_input::{InputError, read_all, room};
use dump::DumpError;
use dump::faults::{Naming, put_fault};
use intel_hex::{TEXT_SIZE, read_hex, write_hex};
use params::answers::HexError;
use std::fs::Files;
use std::io;
use std::io::Write;
use text::printing::Text;

fn write_out(streams: &mut Streams<impl Write, impl Write>, bytes: &[u8]) {
    files::write_out(streams, bytes, b"ihex: standard output");
}

// An image of 128 bytes is not refused, nor this room.
fn print_records(streams: &mut Streams<impl Write, impl Write>, image: &[u8]) {
    let mut text = [0u8; TEXT_SIZE];
    if write_hex(image, &mut text).is_ok() {
        write_out(streams, &text);
    }
}

// What is read, by its name, and the form that it is to have.
#[derive(Clone, Copy)]
pub struct Source<'a> {
    pub name: &'a [u8],
    pub direction: Direction,
}

impl Source<'_> {
    fn say(self, streams: &mut Streams<impl Write, impl Write>, text: &[u8]) {
        files::say(streams, Options::default(), b"ihex", self.name, text);
    }

    fn say_unread(self, streams: &mut Streams<impl Write, impl Write>, why: io::Error) {
        files::say_unread(streams, Options::default(), b"ihex", self.name, why);
    }

    fn say_refusal(
        self,
        streams: &mut Streams<impl Write, impl Write>,
        fault: DumpError,
        text: &[u8],
    ) {
        let mut place = [0u8; 1024];
        let mut out = Text {
            place: &mut place,
            end: 0,
        };
        put_fault(Err(fault), text, Naming::Refusal, &mut out);
        let end = out.end;
        self.say(streams, b"");
        files::write_to(
            streams,
            Stream::Error,
            &place[..end],
            b"ihex: standard error",
        );
    }

    fn write_text(self, streams: &mut Streams<impl Write, impl Write>, text: &[u8]) {
        let mut image = [0u8; 128];
        match dump::read(text, &mut image) {
            Ok(()) => print_records(streams, &image),
            Err(fault) => self.say_refusal(streams, fault, text),
        }
    }

    // The image has 128 bytes, and so is not refused.
    fn read_text(self, streams: &mut Streams<impl Write, impl Write>, text: &[u8]) {
        let mut image = [0u8; 128];
        match read_hex(text, &mut image) {
            Ok(()) => write_out(streams, &image),
            Err(HexError::Bad(fault, line)) => {
                self.say_refusal(streams, DumpError::Record(fault, line), text)
            }
            Err(HexError::Refused(_)) => {}
        }
    }

    // A text may have any number of records without bytes, so there is much room. No Vec: where memory lacks, the program
    // would do otherwise than it did.
    pub fn convert_input(
        self,
        streams: &mut Streams<impl Write, impl Write>,
        from: &mut impl io::Read,
    ) {
        let mut buf = room::<1048576>();
        match (read_all(from, &mut buf), self.direction) {
            (Ok(n), Direction::Write) => self.write_text(streams, &buf[..n]),
            (Ok(n), Direction::Read) => self.read_text(streams, &buf[..n]),
            (Err(InputError::More), _) => self.say(
                streams,
                b"more than 1048575 bytes, which ihex does not take\n",
            ),
            (Err(InputError::Failed(why)), _) => self.say_unread(streams, why),
        }
    }

    pub fn convert_file(
        self,
        rt: &(impl Files + io::Input),
        streams: &mut Streams<impl Write, impl Write>,
    ) {
        match files::opened(rt, self.name) {
            Ok(mut file) => self.convert_input(streams, &mut file),
            Err(why) => self.say_unread(streams, why),
        }
    }
}
