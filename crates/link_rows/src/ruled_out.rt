// The register that rules a link out, and what it holds: as a line, and as the last fields of a row.
ghost use Rattle.std.specs.Prelude.{◌+◌, ◌≤◌, length};
ghost use Rattle.text.specs.Text.{Space, Put};
ghost use Rattle.link_rows.specs.RuledOut.{ruled_out, ruled_out_line, ruled_out_fields};

use link_lines::numerals::put_byte;
use text::printing::Text;

// Each byte behind the words for it.
#[tactic(auto, using(text::proofs::printing::Appending::texts))]
fn put_both(named: &[u8], register: u8, holds: &[u8], value: u8, out: &mut Text<'_>)
    requires { (length named.now ≤ 50) × (length holds.now ≤ 15) × Space 70 out.old }
    ensures appended { Put (ruled_out named.now register holds.now value) out.old out.new }
    ensures upper_bound { out.new.end ≤ out.old.end + 70 }
{
    out.put(named);
    put_byte(register, out);
    out.put(holds);
    put_byte(value, out);
    out.put(b"\n");
}

pub fn put_ruled_out(register: u8, value: u8, out: &mut Text<'_>)
    requires { Space 70 out.old }
    ensures appended { Put (ruled_out_line register value) out.old out.new }
    ensures upper_bound { out.new.end ≤ out.old.end + 70 }
{
    let named = b"no link           27 NotALink: register 0x";
    put_both(named, register, b" holds 0x", value, out);
}

pub fn put_ruled_out_fields(register: u8, value: u8, out: &mut Text<'_>)
    requires { Space 70 out.old }
    ensures appended { Put (ruled_out_fields register value) out.old out.new }
    ensures upper_bound { out.new.end ≤ out.old.end + 70 }
{
    put_both(b"\t0x", register, b"\t0x", value, out);
}
