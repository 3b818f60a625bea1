// Airtime per depot: what the packets of one depot's file add up to, for each bandwidth, or the first line that is bad.
#![tactic(auto)]

ghost use Rattle.time_on_air.specs.Report.{Reported};

use params::answers::BadLine;

pub mod fault_words;
mod fields;
pub mod packet;
pub mod reading;
pub mod symbols;
mod totals;
mod turns;

pub use reading::{Reading, feed, finish, start};

// The report on the whole text of a file.
pub fn airtime(text: &[u8], totals: &mut [u64; 10]) -> Result<(), BadLine>
    ensures { Reported text.now totals.old result totals.new }
{
    finish(feed(start(), text), totals)
}
