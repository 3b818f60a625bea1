// The answer of `airtime` as text: ten totals, or the first bad line.
#![tactic(auto, using(text::proofs::printing::Appending::texts, crate::proofs::answers::Zero::zero), unfolding(crate::specs::Answers::answer_text))]

ghost use Rattle.std.specs.Prelude.{◌+◌, ◌≤◌};
ghost use Rattle.params.specs.Answers.{tells_airtime};
ghost use Rattle.text.specs.Text.{Space, Put};
ghost use Rattle.replies.specs.Answers.{answer_text};

use crate::values::put_numbers;
use params::answers::BadLine;
use params::mod_params::RadioError;
use text::printing::Text;

pub fn put_airtime(answer: Result<(), BadLine>, totals: &[u64; 10], out: &mut Text<'_>)
    requires { Space 230 out.old }
    ensures appended { Put (answer_text (tells_airtime answer totals.now)) out.old out.new }
    ensures upper_bound { out.new.end ≤ out.old.end + 230 }
{
    match answer {
        Ok(()) => {
            out.put(b"0");
            put_numbers(totals, out);
        }
        Err(bad) => {
            out.put_decimal(RadioError::from(bad).number() as u64);
            put_numbers(&[bad.line], out);
        }
    }
}
