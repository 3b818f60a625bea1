// A link as a row of a table: numbers alone, with a tab before each; and the register that rules a link out.
#![tactic(auto, using(text::proofs::printing::Appending::texts))]

ghost use Rattle.std.specs.Prelude.{◌+◌, ◌≤◌};
ghost use Rattle.text.specs.Text.{Space, Put};
ghost use Rattle.link_rows.specs.Rows.{modem_fields, packet_fields, last_fields, link_fields};

use crate::fields::{put_field, put_fields};
use link_lines::frequencies::hertz_of;
use params::mod_params::Link;
use text::printing::Text;

pub mod fields;
pub mod ruled_out;

fn put_last(iq_inverted: u8, power: i32, out: &mut Text<'_>)
    requires { Space 100 out.old }
    ensures appended { Put (last_fields iq_inverted power) out.old out.new }
    ensures upper_bound { out.new.end ≤ out.old.end + 100 }
{
    put_field(u64::from(iq_inverted), out);
    out.put(b"\t");
    out.put_signed(power);
    out.put(b"\n");
}

fn put_modem_fields(l: Link, out: &mut Text<'_>)
    requires { Space 240 out.old }
    ensures appended { Put (modem_fields l) out.old out.new }
    ensures upper_bound { out.new.end ≤ out.old.end + 240 }
{
    let numbers = [
        u64::from(l.public_network),
        u64::from(l.spreading_factor),
        u64::from(hertz_of(l.bandwidth)),
        u64::from(l.coding_rate) + 4,
    ];
    put_fields(&numbers, out);
}

fn put_packet_fields(l: Link, out: &mut Text<'_>)
    requires { Space 240 out.old }
    ensures appended { Put (packet_fields l) out.old out.new }
    ensures upper_bound { out.new.end ≤ out.old.end + 240 }
{
    let numbers = [
        u64::from(l.frequency.0),
        u64::from(l.preamble_length),
        u64::from(l.implicit_header),
        u64::from(l.crc_on),
    ];
    put_fields(&numbers, out);
}

pub fn put_link_fields(l: Link, out: &mut Text<'_>)
    requires { Space 580 out.old }
    ensures appended { Put (link_fields l) out.old out.new }
    ensures upper_bound { out.new.end ≤ out.old.end + 580 }
{
    put_modem_fields(l, out);
    put_packet_fields(l, out);
    put_last(l.iq_inverted, l.power, out);
}
