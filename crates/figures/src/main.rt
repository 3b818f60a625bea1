// Prints the bench's frequencies as the proved code works them out. The starred figures themselves are proved: proofs/Table.antt.
#![tactic(auto)]

ghost use Rattle.std.specs.Prelude.{OnOk, decimal};
ghost use Rattle.std.specs.Io.KnownBytes.{Appends};
ghost use Rattle.figures.specs.Starred.{Right, starred};

use params::units::{Hertz, Steps};
use std::io;
use std::io::Write;

// Every starred figure is what the definitions compute.
fn starred_figures()
    ensures { Right starred }
{}

fn text<W: Write>(out: &mut W, t: &[u8]) -> io::Result<()>
    ensures { OnOk result (Appends (W.contents out.old) (W.contents out.new) t.now) }
{
    out.write_all(t)
}

fn number<W: Write>(out: &mut W, n: u32) -> io::Result<()>
    ensures { OnOk result (Appends (W.contents out.old) (W.contents out.new) (decimal n)) }
{
    write!(out, "{n}")
}

fn byte<W: Write>(out: &mut W, b: u8) -> io::Result<()> {
    write!(out, " {b:02x}")
}

// A frequency, the bytes of its steps in RegFrf, the truncated read-back and the reader's frequency.
fn frequency<W: Write>(out: &mut W, hz: u32) -> io::Result<()> {
    let steps = Hertz(hz).steps();
    let msb = steps.frf_msb();
    let mid = steps.frf_mid();
    let lsb = steps.frf_lsb();
    let held = Steps::from_frf(msb, mid, lsb);
    number(out, hz)?;
    text(out, b" Hz:")?;
    byte(out, msb)?;
    byte(out, mid)?;
    byte(out, lsb)?;
    text(out, b", read back ")?;
    number(out, held.read_back().0)?;
    text(out, b", reader ")?;
    number(out, held.lowest().0)?;
    text(out, b"\n")
}

fn main(rt: HostRuntime) -> io::Result<()> {
    starred_figures();
    let mut out = rt.stdout();
    frequency(&mut out, 0)?;
    frequency(&mut out, 525_000_061)?;
    frequency(&mut out, 525_000_062)?;
    frequency(&mut out, 868_100_000)?;
    frequency(&mut out, 1_023_999_999)?;
    frequency(&mut out, 1_024_000_000)
}
