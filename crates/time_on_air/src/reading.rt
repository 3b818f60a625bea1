// A depot's file read piece after piece: what was read goes in and comes out by value, and at the end it is the report
// on all pieces.
ghost use Rattle.std.specs.Prelude.{◌≡◌, [], Err};
ghost use Rattle.time_on_air.specs.Onward.{Begins, Continues, Ends, GoesOn, answer_of, bad_line, comes_to};

use crate::fields::digits;
use crate::totals::totals_of;
use crate::turns::{MOST_LINES, Progress};
use params::answers::BadLine;
use params::line_faults::LineFault;

// Where the reading is, or the first bad line.
#[derive(Clone, Copy)]
pub struct Reading {
    so_far: Result<Progress, BadLine>,
}

pub fn start() -> Reading
    ensures { Begins result }
{
    Reading {
        so_far: Ok(Progress {
            lines: 0,
            sums: [0; 10],
            numbers: [0; 8],
            field: 0,
            held: 0,
            skipping: false,
        }),
    }
}

// The line behind so many lines is bad; each line after the 50,000th is refused for that alone.
fn bad_line(fault: LineFault, lines: u64) -> BadLine
    ensures { Err result ≡ answer_of (bad_line fault lines) }
{
    if lines < MOST_LINES {
        BadLine {
            fault,
            line: lines + 1,
        }
    } else {
        BadLine {
            fault: LineFault::Late,
            line: 50_001,
        }
    }
}

fn read_fields(before: Progress, piece: &[u8]) -> Result<Progress, BadLine>
    ensures { GoesOn before piece.now result }
{
    let mut progress = before;
    let mut at = 0;
    // No `for` counts this: a turn takes a run of digits and the byte behind it, whatever their number.
    while at < piece.len() {
        let run = digits(piece, at, progress.held);
        progress.held = run.held;
        if run.at == piece.len() {
            break;
        }
        let lines = progress.lines;
        if let Err(fault) = progress.take_byte(piece[run.at]) {
            return Err(bad_line(fault, lines));
        }
        at = run.at + 1;
    }
    Ok(progress)
}

pub fn feed(r: Reading, piece: &[u8]) -> Reading
    ensures { Continues r piece.now result }
{
    match r.so_far {
        Ok(before) => Reading {
            so_far: read_fields(before, piece),
        },
        Err(_) => r,
    }
}

pub fn finish(r: Reading, totals: &mut [u64; 10]) -> Result<(), BadLine>
    ensures { Ends (comes_to r []) totals.old result totals.new }
{
    let progress = r.so_far?;
    if progress.has_begun() {
        return Err(bad_line(LineFault::Open, progress.lines));
    }
    *totals = totals_of(progress.sums);
    Ok(())
}
