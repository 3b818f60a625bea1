// Airtime per depot: the report on the text of a file.
ghost use Rattle.time_on_air.specs.Report.{reported};
ghost use Rattle.results.specs.Results.{Tells};

use results::answers::airtime;

// Values: the total of each bandwidth in microseconds, in the order of the codes, or the number of the first bad line.
#[unsafe(no_mangle)]
pub extern "C" fn sx127x_airtime(text: &[u8], results: &mut [u64]) -> i32
    ensures { Tells (reported text.now) 0 results.old result results.new }
{
    let mut totals = [0u64; 10];
    let answer = time_on_air::airtime(text, &mut totals);
    airtime(results, answer, &totals)
}
