// Our layout: eight data records of 16 bytes from 0 and the end record, in upper case, each line ended by LF.
#![tactic(auto, using(text::proofs::printing::Appending::texts))]

ghost use Rattle.std.specs.Prelude.{◌≡◌, ◌+◌, ◌≤◌, length, take, drop};
ghost use Rattle.text.specs.Text.{Put, Space};
ghost use Rattle.intel_hex.specs.Record.{sum_of, summed};
ghost use Rattle.intel_hex.specs.Layout.{row, line_text, rows_text, layout};

use text::hex::Case;
use text::printing::Text;

fn sum_of(bytes: &[u8]) -> u8
    ensures { result ≡ sum_of bytes.now }
{
    let mut total: u8 = 0;
    for &b in bytes {
        total = total.wrapping_add(b);
    }
    total.wrapping_neg()
}

// What the sum of a data record of 16 bytes is over.
fn row_bytes(bytes: &[u8], first: u8) -> [u8; 20]
    requires { length bytes.now ≡ 16 }
    ensures { result ≡ summed (row first bytes.now) }
{
    let mut held = [0u8; 20];
    held[0] = 16;
    held[2] = first;
    held[4..].copy_from_slice(bytes);
    held
}

// A data record of 16 bytes: 44 characters.
fn put_row(bytes: &[u8], first: u8, out: &mut Text<'_>)
    requires { (length bytes.now ≡ 16) × Space 44 out.old }
    ensures appended { Put (line_text (row first bytes.now)) out.old out.new }
    ensures value { out.new.end ≡ out.old.end + 44 }
{
    let held = row_bytes(bytes, first);
    out.put(b":");
    out.put_hex(&held, Case::Upper);
    out.put_hex(&[sum_of(&held)], Case::Upper);
    out.put(b"\n");
}

fn put_rows(image: &[u8], out: &mut Text<'_>)
    requires { (length image.now ≡ 128) × Space 352 out.old }
    ensures appended { Put (rows_text image.now) out.old out.new }
    ensures value { out.new.end ≡ out.old.end + 352 }
{
    for k in 0..8 {
        let first = 16 * k;
        put_row(&image[first..first + 16], first as u8, out);
    }
}

pub(crate) fn put_layout(image: &[u8], out: &mut Text<'_>)
    requires { (length image.now ≡ 128) × Space 364 out.old }
    ensures { Put (layout image.now) out.old out.new }
{
    put_rows(image, out);
    out.put(b":00000001FF\n");
}
