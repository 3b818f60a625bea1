// The words of the command line.
ghost use Rattle.std.specs.Prelude.{◌≤◌, length, IfSome};

use crate::options;
use crate::options::Stop;
use crate::streams::Streams;
use std::env::{Env, FillError};
use std::io::Write;

// How many bytes a word may have.
pub const LONGEST: usize = 4096;

// How many arguments the program was started with, its own name among them.
pub fn count(rt: &impl Env) -> usize {
    for i in 0..usize::MAX {
        if let Err(FillError::NotPresent) = rt.arg(i, &mut []) {
            return i;
        }
    }
    usize::MAX
}

// Argument i, put into a lent place; nothing where the place is too short for it.
pub fn word<'a>(rt: &impl Env, i: usize, place: &'a mut [u8]) -> Option<&'a [u8]>
    ensures { IfSome result (λ w. length w.now ≤ length place.old) }
{
    let n = rt.arg(i, place).ok()?;
    Some(&place[..n])
}

// What the words behind the program's own name come to, one after another, up to one that stops the tool. Which words they are is the
// system's affair, so that nothing is promised of them.
pub fn all_words<
    A: Drop,
    O: Write,
    E: Write,
    F: FnMut(&mut Streams<O, E>, A, &[u8]) -> Result<A, Stop>,
>(
    rt: &impl Env,
    streams: &mut Streams<O, E>,
    program: &[u8],
    none: A,
    mut with_word: F,
) -> Result<A, Stop>
    requires { F.IsAlwaysCallable with_word }
{
    let mut place = [0u8; LONGEST];
    let mut asked = none;
    for i in 1..count(rt) {
        match word(rt, i, &mut place) {
            Some(word) => asked = with_word(streams, asked, word)?,
            None => return Err(options::too_long(streams, program)),
        }
    }
    Ok(asked)
}
