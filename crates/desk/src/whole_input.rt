// An input read whole into a lent buffer.
ghost use Rattle.std.specs.Prelude.{◌≡◌, length};
ghost use Rattle.desk.specs.Within.{Within};
ghost use Rattle.desk.specs.Draws.{Draws};

use std::io;
use std::io::Read;

// Why an input was not read whole: it filled the buffer, which does not tell whether there is more, or a read failed.
#[derive(Clone, Copy)]
pub enum InputError {
    More,
    Failed(io::Error),
}

impl From<io::Error> for InputError {
    ghost use Rattle.std.specs.Prelude.{◌≡◌};
    ghost use Rattle.desk.specs.declared.whole_input.InputError.TheVariants.{Failed};

    ghost from_gives = { λ why error. error ≡ Failed why };

    fn from(why: io::Error) -> InputError {
        InputError::Failed(why)
    }
}

// Zeros to read into. They are made in a function of their own, so that no proof of a caller unfolds them.
pub fn room<const N: usize>() -> [u8; N]
    ensures { N ≡ length result }
{
    [0; N]
}

// Reads an open file to its end, and answers how many bytes it has. A loop by hand: the reader says how many bytes a
// turn takes.
pub fn read_all<R: Read>(from: &mut R, buf: &mut [u8]) -> Result<usize, InputError>
    ensures within { Within result buf.new }
    ensures drawn { Draws result (R.remaining from.old) (R.remaining from.new) buf.new }
{
    let mut n = 0;
    while n < buf.len() {
        match from.read(&mut buf[n..])? {
            0 => return Ok(n),
            more => n += more,
        }
    }
    Err(InputError::More)
}
