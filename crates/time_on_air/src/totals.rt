// Sums of quarter chips, one for each bandwidth, and the microseconds that they come to.
ghost use Rattle.std.specs.Prelude.{◌≡◌, ◌≤◌, ◌<◌, min, length};
ghost use Rattle.time_on_air.specs.Packet.{packet_fault, Counts};
ghost use Rattle.time_on_air.specs.Lines.{packet_of};
ghost use Rattle.time_on_air.specs.Report.{microseconds};
ghost use Rattle.time_on_air.specs.Onward.{grown as grown_of, added, rounded, most_sum, summed};

use crate::packet::{Packet, packet_fault};
use crate::symbols::quarter_chips;
use params::line_faults::LineFault;
use sheets::bandwidth_hertz;

const MOST_SUM: u64 = 70_000_000_000_000;

fn grown(sum: u64, chips: u64) -> u64
    requires { chips ≤ 4294967295 }
    ensures { result ≡ grown_of sum chips }
{
    if sum < MOST_SUM { sum + chips } else { sum }
}

fn packet_of(ns: &[u64; 8]) -> Packet
    ensures { result ≡ packet_of ns.now }
{
    Packet {
        id: ns[0],
        spreading_factor: ns[1],
        bandwidth: ns[2],
        coding_rate: ns[3],
        preamble: ns[4],
        length: ns[5],
        implicit_header: ns[6],
        crc_on: ns[7],
    }
}

#[tactic(auto, unfolding(crate::specs::Onward::added))]
fn add(sums: &mut [u64; 10], p: Packet)
    requires { Counts p }
    ensures { sums.new ≡ added sums.old p }
{
    let bw = p.bandwidth as usize;
    sums[bw] = grown(sums[bw], quarter_chips(p));
}

// The packet of a line's eight numbers is judged, and added to the sums where nothing is wrong with it.
pub fn end_line(sums: &mut [u64; 10], ns: &[u64; 8]) -> Result<(), LineFault>
    ensures { (result ≡ packet_fault (packet_of ns.now)) × (sums.new ≡ summed result sums.old (packet_of ns.now)) }
{
    let p = packet_of(ns);
    packet_fault(p)?;
    add(sums, p);
    Ok(())
}

// No sum that was read is larger; of any other the sum below is taken, so that what follows fits.
fn bounded(sum: u64) -> u64
    ensures { (result ≡ min sum most_sum) × (result ≤ most_sum) }
{
    sum.min(MOST_SUM)
}

// Rounded up.
#[tactic(auto, using(crate::proofs::totals::Hertz::some_hertz))]
fn total(bw: u8, sum: u64) -> u64
    requires { bw < 10 }
    ensures { result ≡ microseconds bw (min sum most_sum) }
{
    let hertz = bandwidth_hertz(bw) as u64;
    (250_000 * bounded(sum) + (hertz - 1)) / hertz
}

#[tactic(auto, unfolding(crate::specs::Onward::rounded))]
pub fn totals_of(sums: [u64; 10]) -> [u64; 10]
    ensures { result ≡ rounded sums }
{
    let mut totals = [0u64; 10];
    for bw in 0..10 {
        totals[bw] = total(bw as u8, sums[bw]);
    }
    totals
}
