// A link as a person wants it: a line for each setting.
#![tactic(auto, using(text::proofs::printing::Appending::texts), unfolding(crate::specs::Lines::link_lines))]

ghost use Rattle.std.specs.Prelude.{◌++◌, ◌+◌, ◌≤◌};
ghost use Rattle.text.specs.Text.{Space, Put};
ghost use Rattle.link_lines.specs.FrequencyLines.{frequency_line};
ghost use Rattle.link_lines.specs.Lines.{sync_line, bandwidth_line, modem_lines, packet_lines, link_lines};

use crate::frequencies::{hertz_of, put_kilohertz};
use crate::frequency::put_frequency;
use crate::numerals::{put_choice, put_counted};
use crate::power::{put_pin, put_power};
use params::mod_params::Link;
use text::printing::Text;

pub mod board;
pub mod frequencies;
pub mod frequency;
pub mod numerals;
pub mod power;

fn put_bandwidth(bw: u8, out: &mut Text<'_>)
    requires { Space 60 out.old }
    ensures appended { Put (bandwidth_line bw) out.old out.new }
    ensures upper_bound { out.new.end ≤ out.old.end + 60 }
{
    out.put(b"bandwidth         ");
    put_kilohertz(hertz_of(bw), out);
    out.put(b" kHz\n");
}

fn put_modem(l: Link, out: &mut Text<'_>)
    requires { Space 180 out.old }
    ensures appended { Put (modem_lines l) out.old out.new }
    ensures upper_bound { out.new.end ≤ out.old.end + 180 }
{
    put_counted(b"spreading factor  ", l.spreading_factor as u64, b"\n", out);
    put_bandwidth(l.bandwidth, out);
    put_counted(
        b"coding rate       4/",
        l.coding_rate as u64 + 4,
        b"\n",
        out,
    );
}

fn put_packet(l: Link, out: &mut Text<'_>)
    requires { Space 180 out.old }
    ensures appended { Put (packet_lines l) out.old out.new }
    ensures upper_bound { out.new.end ≤ out.old.end + 180 }
{
    put_choice(
        l.implicit_header,
        b"header            implicit\n",
        b"header            explicit\n",
        out,
    );
    put_choice(
        l.crc_on,
        b"CRC               on\n",
        b"CRC               off\n",
        out,
    );
    put_choice(
        l.iq_inverted,
        b"IQ                inverted\n",
        b"IQ                normal\n",
        out,
    );
    put_counted(
        b"preamble          ",
        l.preamble_length as u64,
        b" symbols\n",
        out,
    );
}

fn put_sync(l: Link, out: &mut Text<'_>)
    requires { Space 160 out.old }
    ensures appended { Put (sync_line l ++ frequency_line l.frequency.0) out.old out.new }
    ensures upper_bound { out.new.end ≤ out.old.end + 160 }
{
    put_choice(
        l.public_network,
        b"sync word         0x34 (public)\n",
        b"sync word         0x12 (private)\n",
        out,
    );
    put_frequency(l.frequency, out);
}

// A link that was read from an image with this RegPaConfig.
pub fn put_link(boost: bool, pa_config: u8, l: Link, out: &mut Text<'_>)
    requires { Space 660 out.old }
    ensures appended { Put (link_lines boost pa_config l) out.old out.new }
    ensures upper_bound { out.new.end ≤ out.old.end + 660 }
{
    put_sync(l, out);
    put_modem(l, out);
    put_packet(l, out);
    put_power(l.power, out);
    put_pin(boost, pa_config, out);
}
