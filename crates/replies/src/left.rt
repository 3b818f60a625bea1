// What was lent, as it is afterwards, and the bytes of the log that are used: the end of an outcome's line.
#![tactic(auto, using(text::proofs::printing::Appending::texts))]

ghost use Rattle.std.specs.Prelude.{◌++◌, ◌+◌, ◌*◌, ◌≤◌, length};
ghost use Rattle.text.specs.Text.{Space, Put};
ghost use Rattle.replies.specs.Left.{lent_text, used_text, left_text};

use text::hex::Case;
use text::printing::Text;

// What a call leaves of what it was lent.
#[derive(Clone, Copy)]
pub struct Left<'a> {
    pub image: &'a [u8],
    pub fifo: &'a [u8],
    pub buffer: &'a [u8],
    pub log: &'a [u8],
    pub used: usize,
}

fn put_lent(s: &[u8], out: &mut Text<'_>)
    requires { Space (2 + 2 * length s.now) out.old }
    ensures appended { Put (lent_text s.now) out.old out.new }
    ensures upper_bound { out.new.end ≤ out.old.end + 2 + 2 * length s.now }
{
    if s.len() == 0 {
        out.put(b"\t-");
    } else {
        out.put(b"\t");
        out.put_hex(s, Case::Lower);
    }
}

fn put_used(used: usize, out: &mut Text<'_>)
    requires { Space 22 out.old }
    ensures appended { Put (used_text used) out.old out.new }
    ensures upper_bound { out.new.end ≤ out.old.end + 22 }
{
    out.put(b"\t");
    out.put_decimal(used as u64);
    out.put(b"\n");
}

impl Left<'_> {
    // All that follows the answer, with the line's end.
    pub fn put(self, out: &mut Text<'_>)
        requires { Space (30 + 2 * length self.image.now + 2 * length self.fifo.now + 2 * length self.buffer.now + 2 * length self.log.now) out.old }
        ensures { Put (left_text self.entry.image.now self.entry.fifo.now self.entry.buffer.now self.entry.log.now self.entry.used) out.old out.new }
    {
        put_lent(self.image, out);
        put_lent(self.fifo, out);
        put_lent(self.buffer, out);
        put_lent(self.log, out);
        put_used(self.used, out);
    }
}
