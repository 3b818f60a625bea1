// What is wrong with a line that is no command, in words.
#![tactic(auto, using(text::proofs::printing::Appending::texts))]

ghost use Rattle.std.specs.Prelude.{◌+◌, ◌≤◌};
ghost use Rattle.text.specs.Text.{Space, Put};
ghost use Rattle.radiolog_text.specs.Faults.{from_zero, range_text, expected_text, place_text, wrong_text};

use crate::command_lines::{Expected, Misfit};
use commands::signatures::Kind;
use text::printing::Text;

fn put_up_to(most: u64, out: &mut Text<'_>)
    requires { Space 60 out.old }
    ensures appended { Put (from_zero most) out.old out.new }
    ensures upper_bound { out.new.end ≤ out.old.end + 60 }
{
    out.put(b"a number from 0 to ");
    out.put_decimal(most);
}

fn put_range(kind: Kind, out: &mut Text<'_>)
    requires { Space 60 out.old }
    ensures appended { Put (range_text kind) out.old out.new }
    ensures upper_bound { out.new.end ≤ out.old.end + 60 }
{
    match kind {
        Kind::Power => out.put(b"a number from -2147483648 to 2147483647"),
        _ => put_up_to(kind.most(), out),
    }
}

fn put_expected(expected: Expected, out: &mut Text<'_>)
    requires { Space 60 out.old }
    ensures appended { Put (expected_text expected) out.old out.new }
    ensures upper_bound { out.new.end ≤ out.old.end + 60 }
{
    match expected {
        Expected::Command => out.put(b"a command"),
        Expected::Number(kind) => put_range(kind, out),
        Expected::UpTo(most) => put_up_to(most, out),
        Expected::Bytes => out.put(b"hexadecimal digits in pairs, of one case, or - for none"),
        Expected::Nothing => out.put(b"nothing more"),
    }
}

fn put_place(line: u64, field: usize, out: &mut Text<'_>)
    requires { Space 60 out.old }
    ensures appended { Put (place_text line field) out.old out.new }
    ensures upper_bound { out.new.end ≤ out.old.end + 60 }
{
    out.put(b"?\tline ");
    out.put_decimal(line);
    out.put(b", field ");
    out.put_decimal(field as u64);
}

// The line that a line which is no command gets.
pub fn put_wrong(line: u64, misfit: Misfit, out: &mut Text<'_>)
    requires { Space 140 out.old }
    ensures appended { Put (wrong_text line misfit.field misfit.expected) out.old out.new }
    ensures upper_bound { out.new.end ≤ out.old.end + 140 }
{
    put_place(line, misfit.field, out);
    out.put(b": expected ");
    put_expected(misfit.expected, out);
    out.put(b"\n");
}
