// What was found, beside what the bench says.
ghost use Rattle.std.specs.Prelude.{OnOk};
ghost use Rattle.std.specs.Io.KnownBytes.{Appends};

use std::io;
use std::io::Write;

pub fn text<W: Write>(to: &mut W, t: &[u8]) -> io::Result<()>
    ensures { OnOk result (Appends (W.contents to.old) (W.contents to.new) t.now) }
{
    to.write_all(t)
}

// A value as the bench has it, behind a blank.
pub trait Shown {
    fn show<W: Write>(&self, to: &mut W) -> io::Result<()>;
}

impl<const N: usize> Shown for [u8; N] {
    fn show<W: Write>(&self, to: &mut W) -> io::Result<()> {
        for byte in self {
            write!(to, " {byte:02X}")?;
        }
        Ok(())
    }
}

impl Shown for u64 {
    fn show<W: Write>(&self, to: &mut W) -> io::Result<()> {
        write!(to, " {self}")
    }
}

impl Shown for i16 {
    fn show<W: Write>(&self, to: &mut W) -> io::Result<()> {
        write!(to, " {self}")
    }
}

pub fn beside<W: Write, T: Shown + PartialEq + Copy>(
    to: &mut W,
    found: T,
    wanted: T,
) -> io::Result<()> {
    found.show(to)?;
    if found == wanted {
        return text(to, b" ok");
    }
    text(to, b" WRONG, wanted")?;
    wanted.show(to)
}
