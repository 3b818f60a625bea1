// The fields of a line, byte after byte: the digits of a number, and what another byte ends.
ghost use Rattle.std.specs.Prelude.{◌≡◌, true, ◌≤◌, length};
ghost use Rattle.time_on_air.specs.Onward.{more as more_of, goes_on, missing as missing_of};
ghost use Rattle.time_on_air.specs.Fields.{Stopped, wrong_at, tab_ends, lf_ends, ended_by, Right};

use text::read_decimals::is_digit;

const TAB: u8 = b'\t';

const LF: u8 = b'\n';

// Where digits end, and the number that is held then.
#[derive(Clone, Copy)]
pub struct Run {
    pub at: usize,
    pub held: u64,
}

// What a byte ends that is no digit of a number: a field, a line, or a field or a line that is wrong, with the number
// of its first wrong field.
#[derive(Clone, Copy)]
pub enum Ended {
    Field,
    Line,
    Wrong(usize),
    WrongLine(usize),
}

fn goes_on(held: u64, b: u8) -> bool
    ensures { result ≡ goes_on held b }
{
    is_digit(b) && held != 1
}

// One digit more, of a number that is held as one more than it is.
fn more(held: u64, b: u8) -> u64
    requires { goes_on held b ≡ true }
    ensures { result ≡ more_of held b }
{
    let digit = (b - b'0') as u64;
    if held == 0 {
        return digit + 1;
    }
    if held < 4294967297 {
        return held * 10 + digit - 9;
    }
    held
}

// The digits from a place on.
pub fn digits(piece: &[u8], from: usize, held: u64) -> Run
    requires { from ≤ length piece.now }
    ensures { Stopped piece.now from held result.at result.held }
{
    let mut held = held;
    for at in from..piece.len() {
        let b = piece[at];
        // a separator ends most numbers, and is below every digit
        if b < b'0' || !goes_on(held, b) {
            return Run { at, held };
        }
        held = more(held, b);
    }
    Run {
        at: piece.len(),
        held,
    }
}

// A line that ends before its eighth field lacks the next one.
fn missing(field: usize) -> usize
    ensures { result ≡ missing_of field }
{
    if field < 7 { field + 1 } else { 8 }
}

fn wrong_at(field: usize, b: u8) -> Ended
    ensures { result ≡ wrong_at field b }
{
    if b == LF {
        Ended::WrongLine(field)
    } else {
        Ended::Wrong(field)
    }
}

fn tab_ends(field: usize) -> Ended
    ensures { result ≡ tab_ends field }
{
    if field < 7 {
        Ended::Field
    } else {
        Ended::Wrong(8)
    }
}

fn lf_ends(field: usize) -> Ended
    ensures { result ≡ lf_ends field }
{
    if field == 7 {
        Ended::Line
    } else {
        Ended::WrongLine(missing(field))
    }
}

// A field that is being skipped, or of which nothing was read, is wrong whatever ends it.
pub fn ending(skipping: bool, field: usize, held: u64, b: u8) -> Ended
    ensures { (result ≡ ended_by skipping field held b) × Right result field held }
{
    if skipping || held == 0 {
        return wrong_at(field, b);
    }
    match b {
        TAB => tab_ends(field),
        LF => lf_ends(field),
        _ => Ended::Wrong(field),
    }
}
