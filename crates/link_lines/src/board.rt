// A board as a person wants it, in a line.
#![tactic(auto, using(text::proofs::printing::Appending::texts))]

ghost use Rattle.std.specs.Prelude.{◌+◌, ◌≤◌};
ghost use Rattle.text.specs.Text.{Space, Put};
ghost use Rattle.link_lines.specs.Board.{chip_text, boost_text, oscillator_text, board_line};

use sheets::Variant;
use text::printing::Text;

// What is known of a board's oscillator.
#[derive(Clone, Copy, PartialEq, Eq)]
pub enum Oscillator {
    Crystal,
    Tcxo,
    Either,
}

fn put_chip(variant: Variant, out: &mut Text<'_>)
    requires { Space 30 out.old }
    ensures appended { Put (chip_text variant) out.old out.new }
    ensures upper_bound { out.new.end ≤ out.old.end + 30 }
{
    match variant {
        Variant::Sx1272 => out.put(b"board             SX1272"),
        Variant::Sx1276 => out.put(b"board             SX1276"),
    }
}

fn put_boost(boost: bool, out: &mut Text<'_>)
    requires { Space 10 out.old }
    ensures appended { Put (boost_text boost) out.old out.new }
    ensures upper_bound { out.new.end ≤ out.old.end + 10 }
{
    if boost {
        out.put(b", boost");
    }
}

fn put_oscillator(o: Oscillator, out: &mut Text<'_>)
    requires { Space 30 out.old }
    ensures appended { Put (oscillator_text o) out.old out.new }
    ensures upper_bound { out.new.end ≤ out.old.end + 30 }
{
    match o {
        Oscillator::Crystal => out.put(b"\n"),
        Oscillator::Tcxo => out.put(b", TCXO\n"),
        Oscillator::Either => out.put(b", with or without TCXO\n"),
    }
}

pub fn put_board(variant: Variant, boost: bool, o: Oscillator, out: &mut Text<'_>)
    requires { Space 70 out.old }
    ensures appended { Put (board_line variant boost o) out.old out.new }
    ensures upper_bound { out.new.end ≤ out.old.end + 70 }
{
    put_chip(variant, out);
    put_boost(boost, out);
    put_oscillator(o, out);
}
