// Answers as text: 0 and the values that go with what was answered, or a refusal's number and its own.
#![tactic(auto, using(text::proofs::printing::Appending::texts, crate::proofs::answers::Zero::zero), unfolding(crate::specs::Answers::answer_text))]

ghost use Rattle.std.specs.Prelude.{◌+◌, ◌≤◌};
ghost use Rattle.params.specs.Errors.{refusal};
ghost use Rattle.params.specs.Answers.{tells, tells_read_hex};
ghost use Rattle.text.specs.Text.{Space, Put};
ghost use Rattle.replies.specs.Answers.{answer_text};

use crate::values::{Values, put_numbers};
use params::answers::HexError;
use params::mod_params::RadioError;
use text::printing::Text;

pub fn put_refusal(e: RadioError, out: &mut Text<'_>)
    requires { Space 62 out.old }
    ensures appended { Put (answer_text (refusal e)) out.old out.new }
    ensures upper_bound { out.new.end ≤ out.old.end + 62 }
{
    out.put_decimal(e.number() as u64);
    match e {
        RadioError::OpError(code) => put_numbers(&[code as u64], out),
        RadioError::InvalidBaseAddress(tx, rx) => put_numbers(&[tx as u64, rx as u64], out),
        RadioError::PayloadSizeUnexpected(size) => put_numbers(&[size as u64], out),
        RadioError::PayloadSizeMismatch(size, room) => {
            put_numbers(&[size as u64, room as u64], out)
        }
        _ => {}
    }
}

pub fn put_answer<T: Values>(answer: Result<T, RadioError>, out: &mut Text<'_>)
    requires { Space 230 out.old }
    ensures appended { Put (answer_text (tells T.values answer)) out.old out.new }
    ensures upper_bound { out.new.end ≤ out.old.end + 230 }
{
    match answer {
        Ok(answered) => {
            out.put(b"0");
            answered.put_values(out);
        }
        Err(e) => put_refusal(e, out),
    }
}

// Which record is bad is not told.
pub fn put_read(answer: Result<(), HexError>, out: &mut Text<'_>)
    requires { Space 230 out.old }
    ensures appended { Put (answer_text (tells_read_hex answer)) out.old out.new }
    ensures upper_bound { out.new.end ≤ out.old.end + 230 }
{
    match answer {
        Ok(()) => out.put(b"0"),
        Err(why) => put_refusal(why.into(), out),
    }
}
