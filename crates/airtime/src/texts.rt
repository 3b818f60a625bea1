// What is printed of a report: totals as lines and as a row, a refused line as a row and in words.
#![tactic(auto, using(text::proofs::printing::Appending::texts))]

ghost use Rattle.std.specs.Prelude.{◌+◌, ◌*◌, ◌≤◌, length};
ghost use Rattle.text.specs.Text.{Space, Put};
ghost use Rattle.airtime.specs.Texts.{each_text, lines, row, refused_row, refused_text};

use params::answers::BadLine;
use params::mod_params::RadioError;
use replies::names::put_error;
use text::printing::Text;
use time_on_air::fault_words::put_words;

fn put_each(before: &[u8], totals: &[u64], after: &[u8], out: &mut Text<'_>)
    requires { (length before.now + length after.now ≤ 1) × Space (21 * length totals.now) out.old }
    ensures appended { Put (each_text before.now after.now totals.now) out.old out.new }
    ensures upper_bound { out.new.end ≤ out.old.end + 21 * length totals.now }
{
    for &total in totals {
        out.put(before);
        out.put_decimal(total);
        out.put(after);
    }
}

pub fn put_lines(totals: &[u64], out: &mut Text<'_>)
    requires { Space (21 * length totals.now) out.old }
    ensures { Put (lines totals.now) out.old out.new }
{
    put_each(b"", totals, b"\n", out);
}

pub fn put_row(totals: &[u64], out: &mut Text<'_>)
    requires { Space (21 * length totals.now + 3) out.old }
    ensures { Put (row totals.now) out.old out.new }
{
    out.put(b"\t0");
    put_each(b"\t", totals, b"", out);
    out.put(b"\n");
}

pub fn put_refused_row(bad: BadLine, out: &mut Text<'_>)
    requires { Space 43 out.old }
    ensures { Put (refused_row bad.fault bad.line) out.old out.new }
{
    out.put(b"\t");
    out.put_decimal(RadioError::from(bad).number() as u64);
    out.put(b"\t");
    out.put_decimal(bad.line);
    out.put(b"\n");
}

pub fn put_refused(bad: BadLine, out: &mut Text<'_>)
    requires { Space 562 out.old }
    ensures { Put (refused_text bad.fault bad.line) out.old out.new }
{
    out.put(b"line ");
    out.put_decimal(bad.line);
    out.put(b": ");
    put_error(bad.into(), out);
    put_words(bad.fault, out);
    out.put(b"\n");
}
