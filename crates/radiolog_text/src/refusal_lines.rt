// Refusals for people: the number, its values and the error's name, as a line.
ghost use Rattle.std.specs.Prelude.{◌+◌, ◌≤◌};
ghost use Rattle.text.specs.Text.{Space, Put};
ghost use Rattle.radiolog_text.specs.RefusalLines.{refused_text};

use params::mod_params::RadioError;
use replies::answers::put_refusal;
use replies::names::put_name;
use text::printing::Text;

#[tactic(auto, using(text::proofs::printing::Appending::texts))]
pub fn put_refused(e: RadioError, out: &mut Text<'_>)
    requires { Space 97 out.old }
    ensures appended { Put (refused_text e) out.old out.new }
    ensures upper_bound { out.new.end ≤ out.old.end + 97 }
{
    out.put(b"!\t");
    put_refusal(e, out);
    out.put(b"\t");
    put_name(e, out);
    out.put(b"\n");
}
