// The characters of hex text, and those of records.
ghost use Rattle.std.specs.Prelude.{◌≡◌};
ghost use Rattle.dump.specs.Characters.{is_blank, is_x, kind_of, in_records};
ghost use Rattle.dump.specs.Dump.{could_be_hex};

use text::hex::{is_any_digit, worth};

#[derive(Clone, Copy, PartialEq, Eq)]
pub(crate) enum Kind {
    Digit(u8),
    Blank,
    X,
}

fn is_blank(c: u8) -> bool
    ensures { result ≡ is_blank c }
{
    matches!(c, b' ' | b'\t'..=b'\r')
}

fn is_x(c: u8) -> bool
    ensures { result ≡ is_x c }
{
    matches!(c, b'x' | b'X')
}

// A digit may have a small letter or a capital.
#[tactic(auto, unfolding(crate::specs::Characters::kind_of))]
pub(crate) fn kind_of(c: u8) -> Option<Kind>
    ensures { result ≡ kind_of c }
{
    if is_any_digit(c) {
        Some(Kind::Digit(worth(c)))
    } else if is_blank(c) {
        Some(Kind::Blank)
    } else if is_x(c) {
        Some(Kind::X)
    } else {
        None
    }
}

pub(crate) fn could_be_hex(c: u8) -> bool
    ensures { result ≡ could_be_hex c }
{
    kind_of(c).is_some()
}

pub(crate) fn in_records(c: u8) -> bool
    ensures { result ≡ in_records c }
{
    is_any_digit(c) || matches!(c, b':' | b'\r' | b'\n')
}
