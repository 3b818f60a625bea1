// Whether a line is a call: what is wrong with it, and that in words.
#![tactic(auto)]

ghost use Rattle.std.specs.Prelude.{◌≡◌};
ghost use Rattle.requests.specs.Flaws.{checked, is_either, is_lent, flag_flaw, bytes_flaw, buffer_flaw, head_flaw, asked_flaw, lent_flaw, used_flaw, flaw_of};

use commands::arguments::{arguments_fit, of_kind};
use commands::signatures::Kind;
use commands::{Operation, operation_named};
use text::hex::Case;
use text::reading::{field, same};
use text::{hex, reading};

pub mod faults;

const TAB: u8 = b'\t';

// A field is told by its number, counted from 1.
#[derive(Clone, Copy)]
pub enum Fault {
    LongLine,
    FieldCount,
    Variant,
    Flag(u8),
    UnknownOperation,
    Arguments(Operation),
    Bytes(u8),
    Buffer,
    Used,
}

fn check(right: bool, fault: Fault) -> Result<(), Fault>
    ensures { result ≡ checked right fault }
{
    if right { Ok(()) } else { Err(fault) }
}

fn either(s: &[u8], a: &[u8], b: &[u8]) -> bool
    ensures { result ≡ is_either a.now b.now s.now }
{
    same(s, a) || same(s, b)
}

// Bytes in so many digits at most, or none.
fn is_lent(s: &[u8], digits: usize) -> bool
    ensures { result ≡ is_lent digits s.now }
{
    same(s, b"-") || (s.len() >= 1 && s.len() <= digits && hex::is_hex(s, Case::Lower))
}

// A flag in field k + 1.
#[tactic(auto, unfolding(crate::specs::Flaws::flag_flaw))]
fn check_flag(line: &[u8], k: usize, number: u8) -> Result<(), Fault>
    ensures { result ≡ flag_flaw k number line.now }
{
    let right = either(field(line, TAB, k), b"0", b"1");
    check(right, Fault::Flag(number))
}

// Fields 1 to 4: the board.
#[tactic(auto, unfolding(crate::specs::Flaws::head_flaw))]
fn check_head(line: &[u8]) -> Result<(), Fault>
    ensures { result ≡ head_flaw line.now }
{
    let right = either(field(line, TAB, 0), b"1272", b"1276");
    check(right, Fault::Variant)?;
    check_flag(line, 1, 2)?;
    check_flag(line, 2, 3)?;
    check_flag(line, 3, 4)
}

// Fields 5 and 6: the operation and its arguments.
#[tactic(auto, unfolding(crate::specs::Flaws::asked_flaw))]
fn check_asked(line: &[u8]) -> Result<(), Fault>
    ensures { result ≡ asked_flaw line.now }
{
    match operation_named(field(line, TAB, 4)) {
        None => Err(Fault::UnknownOperation),
        Some(o) => check(arguments_fit(o, field(line, TAB, 5)), Fault::Arguments(o)),
    }
}

// Bytes in field k + 1.
#[tactic(auto, unfolding(crate::specs::Flaws::bytes_flaw))]
fn check_bytes(line: &[u8], k: usize, number: u8) -> Result<(), Fault>
    ensures { result ≡ bytes_flaw k number line.now }
{
    check(is_lent(field(line, TAB, k), 2048), Fault::Bytes(number))
}

// A buffer may be longer than what else is lent: a text may stand in it.
#[tactic(auto, unfolding(crate::specs::Flaws::buffer_flaw))]
fn check_buffer(line: &[u8]) -> Result<(), Fault>
    ensures { result ≡ buffer_flaw line.now }
{
    check(is_lent(field(line, TAB, 8), 8192), Fault::Buffer)
}

// Fields 7 to 10: what is lent.
#[tactic(auto, unfolding(crate::specs::Flaws::lent_flaw))]
fn check_lent(line: &[u8]) -> Result<(), Fault>
    ensures { result ≡ lent_flaw line.now }
{
    check_bytes(line, 6, 7)?;
    check_bytes(line, 7, 8)?;
    check_buffer(line)?;
    check_bytes(line, 9, 10)
}

#[tactic(auto, unfolding(crate::specs::Flaws::used_flaw))]
fn check_used(line: &[u8]) -> Result<(), Fault>
    ensures { result ≡ used_flaw line.now }
{
    check(of_kind(Kind::Count, field(line, TAB, 10)), Fault::Used)
}

// Whether a line is a call; the first thing that is wrong where it is none.
#[tactic(auto, unfolding(crate::specs::Flaws::flaw_of))]
pub fn judged(line: &[u8]) -> Result<(), Fault>
    ensures { result ≡ flaw_of line.now }
{
    check(line.len() <= 16384, Fault::LongLine)?;
    check(reading::count(line, TAB) == 10, Fault::FieldCount)?;
    check_head(line)?;
    check_asked(line)?;
    check_lent(line)?;
    check_used(line)
}
