// What is wrong with an input of registers, in words.
#![tactic(auto, using(text::proofs::printing::Appending::texts))]

mod spot;

ghost use Rattle.std.specs.Prelude.{◌≡◌, ◌+◌, ◌≤◌, take, get_or};
ghost use Rattle.text.specs.Text.{Space, Put};
ghost use Rattle.dump.specs.Faults.{place_text, bad_text, count_text, missing_text, line_text, record_text, named_text, miscounted_text, fault_text};

use crate::DumpError;
use crate::faults::spot::{last_line, spot_behind};
use intel_hex::fault_words::put_words;
use params::hex_faults::HexFault;
use params::mod_params::RadioError;
use replies::names::put_error;
use text::hex::Case;
use text::printing::Text;

// Whether the refusal's number and name stand before the words.
#[derive(Clone, Copy, PartialEq, Eq)]
pub enum Naming {
    Words,
    Refusal,
}

// The text before a place.
fn before(s: &[u8], at: usize) -> &[u8]
    ensures { result.now ≡ take at s.now }
{
    s.get(..at).unwrap_or(s)
}

fn byte_at(s: &[u8], at: usize) -> u8
    ensures { result ≡ get_or s.now at 0 }
{
    s.get(at).copied().unwrap_or(0)
}

fn put_place(s: &[u8], out: &mut Text<'_>)
    requires { Space 60 out.old }
    ensures appended { Put (place_text s.now) out.old out.new }
    ensures upper_bound { out.new.end ≤ out.old.end + 60 }
{
    let spot = spot_behind(s);
    out.put(b"line ");
    out.put_decimal(spot.line as u64);
    out.put(b", column ");
    out.put_decimal(spot.column as u64);
    out.put(b": ");
}

fn put_bad(b: u8, size: usize, out: &mut Text<'_>)
    requires { Space 100 out.old }
    ensures appended { Put (bad_text b size) out.old out.new }
    ensures upper_bound { out.new.end ≤ out.old.end + 100 }
{
    out.put(b"0x");
    out.put_hex(&[b], Case::Upper);
    out.put(b" stands in no hex text, and ");
    out.put_decimal(size as u64);
    out.put(b" bytes are not the 128 of a raw image\n");
}

fn put_count(n: usize, out: &mut Text<'_>)
    requires { Space 70 out.old }
    ensures appended { Put (count_text n) out.old out.new }
    ensures upper_bound { out.new.end ≤ out.old.end + 70 }
{
    out.put(b"hex text of ");
    out.put_decimal(n as u64);
    out.put(b" bytes, and an image has 128\n");
}

fn put_line(line: usize, out: &mut Text<'_>)
    requires { Space 27 out.old }
    ensures appended { Put (line_text line) out.old out.new }
    ensures upper_bound { out.new.end ≤ out.old.end + 27 }
{
    out.put(b"line ");
    out.put_decimal(line as u64);
    out.put(b": ");
}

fn put_record(f: HexFault, line: usize, out: &mut Text<'_>)
    requires { Space 540 out.old }
    ensures appended { Put (record_text f line) out.old out.new }
    ensures upper_bound { out.new.end ≤ out.old.end + 540 }
{
    put_line(line, out);
    put_error(f.into(), out);
    put_words(f, out);
    out.put(b"\n");
}

// The refusal, where it is to be named.
fn put_named(naming: Naming, out: &mut Text<'_>)
    requires { Space 54 out.old }
    ensures appended { Put (named_text naming) out.old out.new }
    ensures upper_bound { out.new.end ≤ out.old.end + 54 }
{
    if let Naming::Refusal = naming {
        put_error(RadioError::BadImage, out);
    }
}

// Where the refusal is named, a wrong count of bytes is told of the text's last line.
fn put_miscounted(n: usize, s: &[u8], naming: Naming, out: &mut Text<'_>)
    requires { Space 160 out.old }
    ensures appended { Put (miscounted_text naming n s.now) out.old out.new }
    ensures upper_bound { out.new.end ≤ out.old.end + 160 }
{
    if let Naming::Refusal = naming {
        put_line(last_line(s), out);
    }
    put_named(naming, out);
    put_count(n, out);
}

// An input that holds an image has no fault, and nothing is written of it.
pub fn put_fault(read: Result<(), DumpError>, s: &[u8], naming: Naming, out: &mut Text<'_>)
    requires { Space 540 out.old }
    ensures appended { Put (fault_text naming read s.now) out.old out.new }
    ensures upper_bound { out.new.end ≤ out.old.end + 540 }
{
    match read {
        Ok(()) => {}
        Err(DumpError::Bytes(n)) => put_miscounted(n, s, naming, out),
        Err(DumpError::Missing(k)) => {
            put_place(before(s, k), out);
            put_named(naming, out);
            out.put(b"a byte has two digits, and one is missing here\n");
        }
        Err(DumpError::Bad(k)) => {
            put_place(before(s, k), out);
            put_named(naming, out);
            put_bad(byte_at(s, k), s.len(), out);
        }
        Err(DumpError::Record(f, line)) => put_record(f, line, out),
    }
}
