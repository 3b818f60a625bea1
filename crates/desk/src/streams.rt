// The two streams that a tool writes to, and what is said where one cannot be written or read.
ghost use Rattle.std.specs.Prelude.{OnOk};
ghost use Rattle.std.specs.Io.KnownBytes.{Keeps};

use std::io;
use std::io::{Cursor, Write};

// Standard output and standard error.
#[derive(Drop)]
pub struct Streams<O, E> {
    pub output: O,
    pub error: E,
}

// One of the two.
#[derive(Clone, Copy)]
pub enum Stream {
    Output,
    Error,
}

impl<O: Write, E: Write> Streams<O, E> {
    ghost use Rattle.desk.specs.Held.{Spares, Writes};

    // Writes all of the text, or stops where the stream takes no more of it.
    pub fn write_all(&mut self, to: Stream, text: &[u8]) -> io::Result<()>
        ensures ok { OnOk result (Writes O.contents E.contents to self.old self.new text.now) }
        ensures other { Spares O.contents E.contents to self.old self.new }
    {
        match to {
            Stream::Output => self.output.write_all(text),
            Stream::Error => self.error.write_all(text),
        }
    }

    // The same where nothing can be said of a failure.
    pub fn put(&mut self, to: Stream, text: &[u8])
        ensures { Spares O.contents E.contents to self.old self.new }
    {
        let _ = self.write_all(to, text);
    }

    // Says on standard error what failed, as the caller names it, and why.
    pub fn fail(&mut self, place: &[u8], why: io::Error)
        ensures { Keeps (O.contents self.old.output) (O.contents self.new.output) }
    {
        let mut text = Cursor::new([0u8; 256]);
        let _ = write!(text, "{why}");
        let n = text.position();
        self.put(Stream::Error, place);
        self.put(Stream::Error, b": ");
        self.put(Stream::Error, reason(text.get_ref(), n));
        self.put(Stream::Error, b"\n");
    }
}

// The words of an error that lie at the start of a text, without the number that the system gives it.
fn reason(text: &[u8], n: u64) -> &[u8] {
    let all = usize::try_from(n)
        .ok()
        .and_then(|n| text.get(..n))
        .unwrap_or(text);
    let Ok(said) = std::str::from_utf8(all) else {
        return all;
    };
    match said.split_once(" (os error ") {
        Some((words, _)) => words.as_bytes(),
        None => all,
    }
}
