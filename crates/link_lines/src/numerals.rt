// Numbers as people write them.
ghost use Rattle.std.specs.Prelude.{◌+◌, ◌*◌, ◌≤◌, length};
ghost use Rattle.text.specs.Text.{Space, Put};
ghost use Rattle.link_lines.specs.Numbers.{counted, choice, byte_text, bytes_text};

use text::hex::Case;
use text::printing::Text;

#[tactic(auto, using(text::proofs::printing::Appending::texts))]
pub fn put_counted(name: &[u8], n: u64, unit: &[u8], out: &mut Text<'_>)
    requires { (length name.now ≤ 24) × (length unit.now ≤ 16) × Space 60 out.old }
    ensures appended { Put (counted name.now n unit.now) out.old out.new }
    ensures upper_bound { out.new.end ≤ out.old.end + 60 }
{
    out.put(name);
    out.put_decimal(n);
    out.put(unit);
}

pub fn put_choice(flag: u8, yes: &[u8], no: &[u8], out: &mut Text<'_>)
    requires { (length yes.now ≤ 40) × (length no.now ≤ 40) × Space 40 out.old }
    ensures appended { Put (choice flag yes.now no.now) out.old out.new }
    ensures upper_bound { out.new.end ≤ out.old.end + 40 }
{
    out.put(if flag == 0 { no } else { yes });
}

pub fn put_byte(b: u8, out: &mut Text<'_>)
    requires { Space 2 out.old }
    ensures { Put (byte_text b) out.old out.new }
{
    out.put_hex(&[b], Case::Upper);
}

// As RegFrf has them. Without a loop: one with a space between the bytes is no plainer for three.
#[tactic(auto, using(text::proofs::printing::Appending::texts))]
pub fn put_bytes(a: u8, b: u8, c: u8, out: &mut Text<'_>)
    requires { Space 8 out.old }
    ensures { Put (bytes_text a b c) out.old out.new }
{
    put_byte(a, out);
    out.put(b" ");
    put_byte(b, out);
    out.put(b" ");
    put_byte(c, out);
}
