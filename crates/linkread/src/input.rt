// An input: a file or standard input, read whole and shown, or what is wrong with it.
#![tactic(auto, using(text::proofs::printing::Appending::texts))]

use crate::show::{Shown, write};
use crate::words::Asked;
use desk::files;
use desk::streams::Streams;
use desk::whole_input::{InputError, read_all, room};
use dump::DumpError;
use dump::faults::{Naming, put_fault};
use std::fs::Files;
use std::io;
use std::io::Write;
use text::printing::Text;

// What is read, by its name, and how it is to be shown.
#[derive(Clone, Copy)]
pub struct Source<'a> {
    pub name: &'a [u8],
    pub asked: Asked,
}

impl Source<'_> {
    fn say(self, streams: &mut Streams<impl Write, impl Write>, text: &[u8]) {
        files::say(streams, self.asked.options, b"linkread", self.name, text);
    }

    fn say_unread(self, streams: &mut Streams<impl Write, impl Write>, why: io::Error) {
        files::say_unread(streams, self.asked.options, b"linkread", self.name, why);
    }

    fn say_fault(
        self,
        streams: &mut Streams<impl Write, impl Write>,
        fault: DumpError,
        text: &[u8],
    ) {
        let mut place = [0u8; 1024];
        let mut out = Text {
            place: &mut place,
            end: 0,
        };
        put_fault(Err(fault), text, Naming::Words, &mut out);
        let end = out.end;
        self.say(streams, b"");
        write(streams, self.asked.options.voice(), &place[..end]);
    }

    fn show_text(self, streams: &mut Streams<impl Write, impl Write>, text: &[u8]) {
        let mut image = [0u8; 128];
        if let Err(fault) = dump::read(text, &mut image) {
            self.say_fault(streams, fault, text);
            return;
        }
        let shown = Shown {
            name: self.name,
            image: &image,
            table: self.asked.options.table,
        };
        match self.asked.board {
            Some(board) => shown.show_board(streams, board),
            None => shown.show_every(streams),
        }
    }

    pub fn show_input(
        self,
        streams: &mut Streams<impl Write, impl Write>,
        from: &mut impl io::Read,
    ) {
        let mut buf = room::<65536>();
        match read_all(from, &mut buf) {
            Ok(n) => self.show_text(streams, &buf[..n]),
            Err(InputError::More) => self.say(
                streams,
                b"more than 65535 bytes, which linkread does not take\n",
            ),
            Err(InputError::Failed(why)) => self.say_unread(streams, why),
        }
    }

    // Lines stand under the file's name.
    pub fn show_file(
        self,
        rt: &(impl Files + io::Input),
        streams: &mut Streams<impl Write, impl Write>,
        first: bool,
    ) {
        let place = b"linkread: standard output";
        if !self.asked.options.table && !files::print_name(streams, self.name, first, place) {
            return;
        }
        match files::opened(rt, self.name) {
            Ok(mut file) => self.show_input(streams, &mut file),
            Err(why) => self.say_unread(streams, why),
        }
    }
}
