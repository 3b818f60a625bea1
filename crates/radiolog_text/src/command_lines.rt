// Whether a line is a command: a word and its arguments, parted by tabs. Where it is none, the first field that is wrong, counted from 1, and what was expected there.
ghost use Rattle.std.specs.Prelude.{◌≡◌, ◌≤◌};
ghost use Rattle.radiolog_text.specs.CommandLines.{is_bytes, is_send, surplus_flaw, bytes_flaw, numbers_flaw, flaw_of};

use crate::command_words::command_named;
use commands::Operation;
use commands::arguments::Arguments;
use commands::signatures::{Kind, kinds};
use text::hex::{Case, is_hex};
use text::reading;
use text::reading::{field, same};

const TAB: u8 = b'\t';

#[derive(Clone, Copy, PartialEq, Eq)]
pub enum Expected {
    Command,
    Number(Kind),
    // From 0, of no kind.
    UpTo(u64),
    Bytes,
    Nothing,
}

// The first field that is wrong.
#[derive(Clone, Copy, PartialEq, Eq)]
pub struct Misfit {
    pub field: usize,
    pub expected: Expected,
}

// 1 to 1,024 bytes, or none.
fn is_bytes(s: &[u8]) -> bool
    ensures { result ≡ is_bytes s.now }
{
    let digits = s.len() >= 1 && s.len() <= 2048;
    same(s, b"-") || digits && (is_hex(s, Case::Lower) || is_hex(s, Case::Upper))
}

// The command that takes bytes, by its word or its name.
fn is_send(w: &[u8]) -> bool
    ensures { result ≡ is_send w.now }
{
    same(w, b"payload") || same(w, b"set_payload")
}

// Nothing may stand behind n arguments.
#[tactic(auto, unfolding(crate::specs::CommandLines::surplus_flaw))]
fn surplus_flaw(line: &[u8], n: usize) -> Result<(), Misfit>
    requires { n ≤ 10 }
    ensures { result ≡ surplus_flaw n line.now }
{
    if reading::count(line, TAB) > n {
        return Err(Misfit {
            field: n + 2,
            expected: Expected::Nothing,
        });
    }
    Ok(())
}

#[tactic(auto, unfolding(crate::specs::CommandLines::bytes_flaw))]
fn bytes_flaw(line: &[u8]) -> Result<(), Misfit>
    ensures { result ≡ bytes_flaw line.now }
{
    if !is_bytes(field(line, TAB, 1)) {
        return Err(Misfit {
            field: 2,
            expected: Expected::Bytes,
        });
    }
    surplus_flaw(line, 1)
}

#[tactic(auto, unfolding(crate::specs::CommandLines::numbers_flaw))]
fn numbers_flaw(o: Operation, line: &[u8]) -> Result<(), Misfit>
    ensures { result ≡ numbers_flaw o line.now }
{
    let kinds = kinds(o);
    let arguments = Arguments {
        text: line,
        parting: TAB,
    };
    let i = arguments.misfit(o, 1);
    if i < kinds.len() {
        return Err(Misfit {
            field: i + 2,
            expected: Expected::Number(kinds[i]),
        });
    }
    surplus_flaw(line, i)
}

#[tactic(auto, unfolding(crate::specs::CommandLines::flaw_of))]
pub fn judged(line: &[u8]) -> Result<(), Misfit>
    ensures { result ≡ flaw_of line.now }
{
    let w = field(line, TAB, 0);
    if is_send(w) {
        return bytes_flaw(line);
    }
    match command_named(w) {
        Some(o) => numbers_flaw(o, line),
        None => Err(Misfit {
            field: 1,
            expected: Expected::Command,
        }),
    }
}
