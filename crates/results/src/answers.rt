// An answer, told: its number, and in the results its values. A call that is lent no log has none of its bytes used: 0.
ghost use Rattle.params.specs.Answers.{tells, tells_airtime};
ghost use Rattle.results.specs.Results.{Tells};

use crate::values::Values;
use crate::words::put;
use params::answers::BadLine;
use params::mod_params::RadioError;

pub fn told<T: Values>(results: &mut [u64], used: usize, answer: Result<T, RadioError>) -> i32
    ensures { Tells (tells T.values answer) used results.old result results.new }
{
    match answer {
        Ok(answered) => {
            answered.put(results, used as u64);
            0
        }
        Err(e) => {
            e.put(results, used as u64);
            i32::from(e.number())
        }
    }
}

// The totals are those that the answer speaks of; a bad line is told by its number.
pub fn airtime(results: &mut [u64], answer: Result<(), BadLine>, totals: &[u64; 10]) -> i32
    ensures { Tells (tells_airtime answer totals.now) 0 results.old result results.new }
{
    match answer {
        Ok(()) => {
            put(results, 0, totals);
            0
        }
        Err(bad) => {
            put(results, 0, &[bad.line]);
            i32::from(RadioError::from(bad).number())
        }
    }
}
