// What an input comes to, shown: its totals, the line that was refused, or why it could not be read.
#![tactic(auto, using(text::proofs::printing::Appending::texts))]

use crate::input::{NoTotals, read_through};
use crate::texts;
use desk::files;
use desk::options::Options;
use desk::streams::{Stream, Streams};
use params::answers::BadLine;
use std::fs::Files;
use std::io;
use std::io::Write;
use text::printing::Text;

fn write(streams: &mut Streams<impl Write, impl Write>, to: Stream, text: &[u8]) -> bool {
    files::write_to(streams, to, text, b"airtime: standard output")
}

// What is read, by its name, how it is to be shown, and whether nothing was shown on standard output before it.
#[derive(Clone, Copy)]
pub struct Source<'a> {
    pub name: &'a [u8],
    pub options: Options,
    pub first: bool,
}

impl Source<'_> {
    // A row is written behind its file's name.
    fn write_row(self, streams: &mut Streams<impl Write, impl Write>, row: &[u8]) {
        if write(streams, Stream::Output, self.name) {
            write(streams, Stream::Output, row);
        }
    }

    // Of several files, what is shown of each stands under its name; whether the name could be written.
    fn under_name(self, streams: &mut Streams<impl Write, impl Write>) -> bool {
        !self.options.several
            || files::print_name(streams, self.name, self.first, b"airtime: standard output")
    }

    // A message is shown among the rest where that is asked for, and otherwise on standard error.
    fn message_follows(self, streams: &mut Streams<impl Write, impl Write>) -> bool {
        self.options.table || !self.options.aloud || self.under_name(streams)
    }

    fn show_totals(self, streams: &mut Streams<impl Write, impl Write>, totals: &[u64; 10]) {
        let mut place = [0u8; 256];
        let mut out = Text {
            place: &mut place,
            end: 0,
        };
        if self.options.table {
            texts::put_row(totals, &mut out);
            let end = out.end;
            self.write_row(streams, &place[..end]);
        } else if self.under_name(streams) {
            texts::put_lines(totals, &mut out);
            let end = out.end;
            write(streams, Stream::Output, &place[..end]);
        }
    }

    fn show_refused(self, streams: &mut Streams<impl Write, impl Write>, bad: BadLine) {
        let mut place = [0u8; 1024];
        let mut out = Text {
            place: &mut place,
            end: 0,
        };
        if self.options.table {
            texts::put_refused_row(bad, &mut out);
            let end = out.end;
            self.write_row(streams, &place[..end]);
        } else if self.message_follows(streams) {
            texts::put_refused(bad, &mut out);
            let end = out.end;
            files::say(streams, self.options, b"airtime", self.name, b"");
            write(streams, self.options.voice(), &place[..end]);
        }
    }

    fn show_unread(self, streams: &mut Streams<impl Write, impl Write>, why: io::Error) {
        if self.message_follows(streams) {
            files::say_unread(streams, self.options, b"airtime", self.name, why);
        }
    }

    // Shows totals, or why there are none, and answers whether nothing was shown on standard output yet.
    fn show(
        self,
        streams: &mut Streams<impl Write, impl Write>,
        read: Result<[u64; 10], NoTotals>,
    ) -> bool {
        match read {
            Ok(totals) => {
                self.show_totals(streams, &totals);
                return false;
            }
            Err(NoTotals::Unread(why)) => self.show_unread(streams, why),
            Err(NoTotals::Refused(bad)) => self.show_refused(streams, bad),
        }
        self.first && !self.options.aloud
    }

    pub fn show_input(
        self,
        streams: &mut Streams<impl Write, impl Write>,
        from: &mut impl io::Read,
    ) -> bool {
        self.show(streams, read_through(from))
    }

    pub fn show_file(
        self,
        rt: &(impl Files + io::Input),
        streams: &mut Streams<impl Write, impl Write>,
    ) -> bool {
        match files::opened(rt, self.name) {
            Ok(mut file) => self.show_input(streams, &mut file),
            Err(why) => self.show(streams, Err(why.into())),
        }
    }
}
