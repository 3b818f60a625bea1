// Lines of standard input: each is answered in turn. A line that is longer than any call is answered once and skipped to
// its end.
ghost use Rattle.std.specs.Prelude.{◌≤◌, length, IfSome};

use crate::call::answer;
use desk::files::write_out;
use desk::streams::Streams;
use std::io::{Read, Write};
use text::bytes::find;
use text::printing::Text;

const LONGEST: usize = 16384;

// How far the lines of what was read are answered, and whether the rest belongs to a line that was answered already.
#[derive(Clone, Copy)]
struct Passed {
    to: usize,
    skipping: bool,
}

// What goes on to the next read: the bytes kept, and whether a line is being skipped.
#[derive(Clone, Copy)]
struct Kept {
    count: usize,
    skipping: bool,
}

fn write_answer(streams: &mut Streams<impl Write, impl Write>, line: &[u8]) -> bool {
    let mut place = [0u8; 14596];
    let mut out = Text {
        place: &mut place,
        end: 0,
    };
    answer(line, &mut out);
    let end = out.end;
    write_out(streams, &place[..end], b"calls: standard output")
}

// Answers each whole line of what was read, as long as the answers can be written.
fn answer_lines(
    streams: &mut Streams<impl Write, impl Write>,
    text: &[u8],
    skipping: bool,
) -> Option<Passed>
    ensures { IfSome result (λ passed. passed.to ≤ length text.now) }
{
    let mut passed = Passed { to: 0, skipping };
    while let Some(n) = find(&text[passed.to..], b'\n') {
        let end = passed.to + n;
        if !passed.skipping && !write_answer(streams, &text[passed.to..end]) {
            return None;
        }
        passed = Passed {
            to: end + 1,
            skipping: false,
        };
    }
    Some(passed)
}

// A part of a line that is longer than any call is answered as the line, and what follows of it skipped.
fn keep(
    streams: &mut Streams<impl Write, impl Write>,
    buf: &mut [u8],
    all: usize,
    passed: Passed,
) -> Option<Kept>
    requires { (passed.to ≤ all) × (all ≤ length buf.old) }
    ensures { IfSome result (λ kept. kept.count ≤ 16384) }
{
    let skipped = Kept {
        count: 0,
        skipping: true,
    };
    let left = all - passed.to;
    if passed.skipping {
        return Some(skipped);
    }
    if left > LONGEST {
        return write_answer(streams, &buf[passed.to..all]).then_some(skipped);
    }
    buf.copy_within(passed.to..all, 0);
    Some(Kept {
        count: left,
        skipping: false,
    })
}

fn read_more(
    from: &mut impl Read,
    streams: &mut Streams<impl Write, impl Write>,
    buf: &mut [u8],
    kept: Kept,
) -> Option<Kept>
    requires { (kept.count ≤ 16384) × (65536 ≤ length buf.old) }
    ensures { IfSome result (λ kept. kept.count ≤ 16384) }
{
    let more = match from.read(&mut buf[kept.count..]) {
        Ok(n) => n,
        Err(why) => {
            streams.fail(b"calls: standard input", why);
            return None;
        }
    };
    if more == 0 {
        if kept.count > 0 {
            write_answer(streams, &buf[..kept.count]);
        }
        return None;
    }
    let all = kept.count + more;
    let passed = answer_lines(streams, &buf[..all], kept.skipping)?;
    keep(streams, buf, all, passed)
}

// Nothing says that the input ends, so the turns are counted, up to a number that no run uses up.
pub fn answer_input(from: &mut impl Read, streams: &mut Streams<impl Write, impl Write>) {
    let mut buf = [0u8; 65536];
    let mut kept = Kept {
        count: 0,
        skipping: false,
    };
    for _ in 0..u64::MAX {
        match read_more(from, streams, &mut buf, kept) {
            Some(more) => kept = more,
            None => return,
        }
    }
}
