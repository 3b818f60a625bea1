// How long a packet is on the air: in quarter symbols, and in the quarter chips that a sum is made of.
ghost use Rattle.std.specs.Prelude.{◌≡◌, ◌≤◌, pos};
ghost use Rattle.time_on_air.specs.Packet.{Counts};
ghost use Rattle.time_on_air.specs.Symbols.{greater_of0, coded_bits, coded_symbols, quarter_symbols, quarter_chips};

use crate::packet::Packet;
use modem::low_data_rate::low_data_rate_optimize;

fn coded_bits(sf: u64, length: u64, implicit: u64, crc: u64) -> u64
    requires { (sf ≤ 12) × (length ≤ 255) × (implicit ≤ 1) × (crc ≤ 1) }
    ensures { (result ≡ greater_of0 (coded_bits sf length implicit crc)) × (result ≤ 2084) }
{
    let bits = 8 * length + 28 + 16 * crc;
    let less = 4 * sf + 20 * implicit;
    bits.saturating_sub(less)
}

// A quotient of 32 bits is the quicker one.
fn coded_symbols(sf: u64, de: u64, cr: u64, bits: u64) -> u64
    requires { (6 ≤ sf) × (sf ≤ 12) × (de ≤ 1) × (cr ≤ 4) × (bits ≤ 2084) }
    ensures { (result ≡ coded_symbols sf de cr (pos bits)) × (result ≤ 17048) }
{
    let group = 4 * (sf - 2 * de);
    let groups = (bits + (group - 1)) as u32 / group as u32;
    groups as u64 * (cr + 4)
}

// `Counts` stays a clause of this, `quarter_chips` and `totals::add`: a type that holds it would be made for each line and taken
// apart at once, which is no plainer.
pub fn quarter_symbols(p: Packet) -> u64
    requires { Counts p }
    ensures { (result ≡ quarter_symbols p) × (result ≤ 330381) }
{
    let sf = p.spreading_factor;
    let de = low_data_rate_optimize(sf as u8, p.bandwidth as u8);
    let bits = coded_bits(sf, p.length, p.implicit_header, p.crc_on);
    let coded = coded_symbols(sf, de as u64, p.coding_rate, bits);
    4 * p.preamble + 17 + 4 * (8 + coded)
}

pub fn quarter_chips(p: Packet) -> u64
    requires { Counts p }
    ensures { (result ≡ quarter_chips p) × (result ≤ 1353240576) }
{
    quarter_symbols(p) * (1u64 << p.spreading_factor)
}
