// An input read to its end, piece after piece, so that memory does not grow with it.
use desk::whole_input::room;
use params::answers::BadLine;
use std::io;
use std::io::Read;
use time_on_air::{feed, finish, start};

// Why an input has no totals: it could not be read, or a line of it is bad.
#[derive(Clone, Copy)]
pub enum NoTotals {
    Unread(io::Error),
    Refused(BadLine),
}

impl From<io::Error> for NoTotals {
    ghost use Rattle.std.specs.Prelude.{◌≡◌};
    ghost use Rattle.airtime.specs.declared.input.NoTotals.TheVariants.{Unread};

    ghost from_gives = { λ why error. error ≡ Unread why };

    fn from(why: io::Error) -> NoTotals {
        NoTotals::Unread(why)
    }
}

impl From<BadLine> for NoTotals {
    ghost use Rattle.std.specs.Prelude.{◌≡◌};
    ghost use Rattle.airtime.specs.declared.input.NoTotals.TheVariants.{Refused};

    ghost from_gives = { λ bad error. error ≡ Refused bad };

    fn from(bad: BadLine) -> NoTotals {
        NoTotals::Refused(bad)
    }
}

// The totals of an input. Nothing says that it ends, so the turns are counted, up to a number that no run uses up.
pub fn read_through(from: &mut impl Read) -> Result<[u64; 10], NoTotals> {
    let mut buf = room::<65536>();
    let mut reading = start();
    for _ in 0..u64::MAX {
        match from.read(&mut buf)? {
            0 => break,
            n => reading = feed(reading, &buf[..n]),
        }
    }
    let mut totals = [0; 10];
    finish(reading, &mut totals)?;
    Ok(totals)
}
