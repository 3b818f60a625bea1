// Runs the bench figures of document 01 through the public calls: a line for each row, with what was found and whether it is the bench's.
#![tactic(auto)]

mod calls;
mod lines;

use calls::{frf, measured, powered, read_back, reader, refusal, window};
use lines::{beside, text};
use sheets::Variant;
use std::io;
use std::io::Write;

fn frequencies<W: Write>(to: &mut W) -> io::Result<()> {
    text(to, b"0 Hz:")?;
    beside(to, frf(0), [0x00, 0x00, 0x00])?;
    text(to, b"\n868100000 Hz:")?;
    beside(to, frf(868_100_000), [0xd9, 0x06, 0x66])?;
    text(to, b", read back")?;
    beside(to, read_back(868_100_000), 868_099_975)?;
    text(to, b", reader")?;
    beside(to, reader(868_100_000), 868_099_976)?;
    text(to, b"\n1023999999 Hz:")?;
    beside(to, frf(1_023_999_999), [0xff, 0xff, 0xff])?;
    text(to, b"\n1024000000 Hz:")?;
    beside(to, frf(1_024_000_000), [0x00, 0x00, 0x00])?;
    text(to, b", whole programming")?;
    beside(to, refusal(7, 1_024_000_000), 23)?;
    text(to, b"\n")
}

fn offsets<W: Write>(to: &mut W) -> io::Result<()> {
    text(to, b"1276 at 525000061 Hz:")?;
    beside(to, frf(525_000_061), [0x83, 0x40, 0x00])?;
    text(to, b", offset")?;
    beside(to, measured(Variant::Sx1276, 525_000_061, 0, 0).rssi, -164)?;
    text(to, b"\n1276 at 525000062 Hz:")?;
    beside(to, frf(525_000_062), [0x83, 0x40, 0x01])?;
    text(to, b", offset")?;
    beside(to, measured(Variant::Sx1276, 525_000_062, 0, 0).rssi, -157)?;
    text(to, b"\n")
}

fn bandwidths<W: Write>(to: &mut W) -> io::Result<()> {
    text(to, b"250 kHz at 399999999 Hz:")?;
    beside(to, refusal(8, 399_999_999), 16)?;
    text(to, b", at 400000000 Hz:")?;
    beside(to, refusal(8, 400_000_000), 0)?;
    text(to, b"\n")
}

fn signals<W: Write>(to: &mut W) -> io::Result<()> {
    text(to, b"SNR FF, FC, 80:")?;
    beside(to, measured(Variant::Sx1272, 0, 0, 0xff).snr, 0)?;
    beside(to, measured(Variant::Sx1272, 0, 0, 0xfc).snr, -1)?;
    beside(to, measured(Variant::Sx1272, 0, 0, 0x80).snr, -32)?;
    text(to, b"\n1272 RSSI 14, 15, 255 at SNR 0:")?;
    beside(to, measured(Variant::Sx1272, 0, 14, 0).rssi, -125)?;
    beside(to, measured(Variant::Sx1272, 0, 15, 0).rssi, -123)?;
    beside(to, measured(Variant::Sx1272, 0, 255, 0).rssi, 133)?;
    text(to, b"\n1272 RSSI 15 at SNR FC:")?;
    beside(to, measured(Variant::Sx1272, 0, 15, 0xfc).rssi, -125)?;
    text(to, b"\n")
}

fn windows<W: Write>(to: &mut W) -> io::Result<()> {
    text(to, b"single 0, 1023, 1024:")?;
    beside(to, window(0), 4)?;
    beside(to, window(1023), 1023)?;
    beside(to, window(1024), 1023)?;
    text(to, b"\n")
}

// The SX1276's registers 4d, 0b and 09.
fn amplifier<W: Write>(to: &mut W, power: i32, wanted: [u8; 3]) -> io::Result<()> {
    let image = powered(Variant::Sx1276, true, power);
    beside(to, [image[0x4d], image[0x0b], image[0x09]], wanted)
}

// Register 09.
fn output<W: Write>(to: &mut W, power: i32, wanted: u8) -> io::Result<()> {
    let image = powered(Variant::Sx1276, false, power);
    beside(to, [image[0x09]], [wanted])
}

// The SX1272's registers 09 and 5a.
fn amplifier_1272<W: Write>(to: &mut W, power: i32, wanted: [u8; 2]) -> io::Result<()> {
    let image = powered(Variant::Sx1272, true, power);
    beside(to, [image[0x09], image[0x5a]], wanted)
}

fn powers<W: Write>(to: &mut W) -> io::Result<()> {
    text(to, b"1276 boosted 17, 18, registers 4d 0b 09:")?;
    amplifier(to, 17, [0x84, 0x2b, 0x8f])?;
    amplifier(to, 18, [0x87, 0x3b, 0x90])?;
    text(to, b"\n1276 unboosted -1, 0, register 09:")?;
    output(to, -1, 0xff)?;
    output(to, 0, 0x70)?;
    text(to, b"\n1272 boosted 17, 18, registers 09 5a:")?;
    amplifier_1272(to, 17, [0x8f, 0x84])?;
    amplifier_1272(to, 18, [0x8d, 0x87])?;
    text(to, b"\n")
}

fn main(rt: HostRuntime) -> io::Result<()> {
    let mut out = rt.stdout();
    frequencies(&mut out)?;
    offsets(&mut out)?;
    bandwidths(&mut out)?;
    signals(&mut out)?;
    windows(&mut out)?;
    powers(&mut out)
}
