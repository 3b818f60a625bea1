// Files by name: opened, and what is said of one.
ghost use Rattle.std.specs.Prelude.{IsTrue};
ghost use Rattle.desk.specs.Held.{Spares, Writes};
ghost use Rattle.desk.specs.Heading.{heading, title};

use crate::options::Options;
use crate::streams::{Stream, Streams};
use either::{Either, Left, Right};
use std::fs::{File, Files};
use std::io;
use std::io::{ErrorKind, Input, Write};

// The file of that name is opened; `-` is standard input. A name that is no text names no file.
pub fn opened<R: Files + Input>(rt: &R, name: &[u8]) -> io::Result<Either<R::Reader, R::File>> {
    if name == b"-".as_slice() {
        return Ok(Left(rt.reader()));
    }
    match std::str::from_utf8(name) {
        Ok(path) => Ok(Right(File::open(rt, path)?)),
        Err(_) => Err(io::Error::from(ErrorKind::InvalidFilename)),
    }
}

pub fn say<O: Write, E: Write>(
    streams: &mut Streams<O, E>,
    o: Options,
    program: &[u8],
    name: &[u8],
    text: &[u8],
) {
    let to = o.voice();
    streams.put(to, program);
    streams.put(to, b": ");
    streams.put(to, name);
    streams.put(to, b": ");
    streams.put(to, text);
}

// Why the file could not be opened or read.
pub fn say_unread<O: Write, E: Write>(
    streams: &mut Streams<O, E>,
    o: Options,
    program: &[u8],
    name: &[u8],
    why: io::Error,
) {
    let text: &[u8] = match why.kind() {
        ErrorKind::NotFound => b"no such file\n",
        ErrorKind::PermissionDenied => b"not allowed to read it\n",
        ErrorKind::IsADirectory => b"a folder, not a file\n",
        _ => b"cannot be read\n",
    };
    say(streams, o, program, name, text);
}

// What cannot be written is told with the place's name, so that a table that was cut short is not taken for a whole one.
pub fn write_to<O: Write, E: Write>(
    streams: &mut Streams<O, E>,
    to: Stream,
    text: &[u8],
    place: &[u8],
) -> bool
    ensures { IsTrue result → Writes O.contents E.contents to streams.old streams.new text.now }
{
    match streams.write_all(to, text) {
        Ok(()) => true,
        Err(why) => {
            streams.fail(place, why);
            false
        }
    }
}

pub fn write_out<O: Write, E: Write>(streams: &mut Streams<O, E>, text: &[u8], place: &[u8]) -> bool
    ensures { IsTrue result
        → Writes O.contents E.contents Stream.Output streams.old streams.new text.now }
{
    write_to(streams, Stream::Output, text, place)
}

fn print_title<O: Write, E: Write>(streams: &mut Streams<O, E>, name: &[u8], place: &[u8]) -> bool
    ensures { IsTrue result
        → Writes O.contents E.contents Stream.Output streams.old streams.new (title name.now) }
{
    write_out(streams, b"file              ", place)
        && write_out(streams, name, place)
        && write_out(streams, b"\n", place)
}

// The name of a file before what is shown of it, and an empty line between two files; whether they could be written.
pub fn print_name<O: Write, E: Write>(
    streams: &mut Streams<O, E>,
    name: &[u8],
    first: bool,
    place: &[u8],
) -> bool
    ensures { IsTrue result
        → Writes O.contents E.contents Stream.Output streams.old streams.new (heading first name.now) }
{
    if first {
        return print_title(streams, name, place);
    }
    write_out(streams, b"\n", place) && print_title(streams, name, place)
}
