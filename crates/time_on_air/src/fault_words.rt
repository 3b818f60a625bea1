// What is wrong with a line of a depot's file, in words.
#![tactic(auto, using(text::proofs::printing::Appending::texts))]

ghost use Rattle.std.specs.Prelude.{◌≡◌, ◌++◌, ◌+◌, ◌≤◌, length};
ghost use Rattle.text.specs.Text.{Put, Space};
ghost use Rattle.params.specs.declared.line_faults.LineFault.TheVariants.{Form};
ghost use Rattle.time_on_air.specs.FaultWords.{name_of, named, words_of};

use params::line_faults::LineFault;
use text::printing::Text;

fn put_name(k: usize, out: &mut Text<'_>)
    requires { Space 20 out.old }
    ensures appended { Put (name_of k) out.old out.new }
    ensures upper_bound { out.new.end ≤ out.old.end + 20 }
{
    match k {
        0 => out.put(b"the pack id"),
        1 => out.put(b"the spreading factor"),
        2 => out.put(b"the bandwidth code"),
        3 => out.put(b"the coding rate"),
        4 => out.put(b"the preamble length"),
        5 => out.put(b"the payload length"),
        6 => out.put(b"the header flag"),
        7 => out.put(b"the CRC flag"),
        _ => {}
    }
}

// A field, told from 1 and by its name, and what is wrong with it.
#[tactic(auto, using(text::proofs::printing::Appending::texts), unfolding(crate::specs::FaultWords::named))]
fn put_field(k: usize, reason: &[u8], out: &mut Text<'_>)
    requires { (k ≤ 7) × Space (length reason.now + 50) out.old }
    ensures appended { Put (named k ++ reason.now) out.old out.new }
    ensures upper_bound { out.new.end ≤ out.old.end + (length reason.now + 50) }
{
    out.put(b"field ");
    out.put_decimal((k + 1) as u64);
    out.put(b", ");
    put_name(k, out);
    out.put(b", ");
    out.put(reason);
}

fn put_form(k: usize, out: &mut Text<'_>)
    requires { Space 480 out.old }
    ensures appended { Put (words_of (Form k)) out.old out.new }
    ensures upper_bound { out.new.end ≤ out.old.end + 480 }
{
    if k < 8 {
        put_field(
            k,
            b"is missing or no number (digits alone, no leading 0)",
            out,
        );
    } else {
        out.put(b"a ninth field");
    }
}

pub fn put_words(f: LineFault, out: &mut Text<'_>)
    requires { Space 480 out.old }
    ensures appended { Put (words_of f) out.old out.new }
    ensures upper_bound { out.new.end ≤ out.old.end + 480 }
{
    match f {
        LineFault::Form(k) => put_form(k, out),
        LineFault::Open => out.put(b"the line does not end with LF"),
        LineFault::Late => out.put(b"a line after the 50000th"),
        LineFault::Id => put_field(0, b"is above 4294967295", out),
        LineFault::Preamble => put_field(4, b"is above 65535", out),
        LineFault::Length => put_field(5, b"is above 255", out),
        LineFault::SpreadingFactor => put_field(1, b"is not 5 to 12", out),
        LineFault::Bandwidth => put_field(2, b"is not 0 to 9", out),
        LineFault::CodingRate => put_field(3, b"is not 1 to 4", out),
        LineFault::Header => put_field(6, b"is not 0 or 1", out),
        LineFault::Crc => put_field(7, b"is not 0 or 1", out),
        LineFault::Sf5 => put_field(1, b"is 5, which the radios do not have", out),
        LineFault::Sf6Explicit => put_field(1, b"is 6, which has no explicit header", out),
    }
}
