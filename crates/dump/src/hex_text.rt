// Hex text, read character by character.
ghost use Rattle.std.specs.Prelude.{◌≡◌, ◌++◌, ◌+◌, ◌^◌, ◌≤◌, ◌<◌, length, take, Ok};
ghost use Rattle.dump.specs.Dump.{leave, text_read, text_left};
ghost use Rattle.dump.specs.Text.{on_digit, on_blank, on_x, step_at, next, given, ended};

use crate::DumpError;
use crate::characters::{Kind, kind_of};

// Between bytes, behind a first 0, behind 0x, or behind a first digit.
#[derive(Clone, Copy, PartialEq, Eq)]
pub(crate) enum State {
    Between,
    Zero,
    Prefix,
    Half(u8),
}

// What a character does that is right: it leads on, or ends a byte.
#[derive(Clone, Copy, PartialEq, Eq)]
pub(crate) enum Step {
    To(State),
    Byte(u8),
}

// A digit is below 16, so that the remainders change nothing.
fn on_digit(state: State, d: u8) -> Step
    ensures { result ≡ on_digit state d }
{
    match state {
        State::Between if d == 0 => Step::To(State::Zero),
        State::Between => Step::To(State::Half(d)),
        State::Zero => Step::Byte(d % 16),
        State::Prefix => Step::To(State::Half(d)),
        State::Half(h) => Step::Byte(h % 16 * 16 + d % 16),
    }
}

fn on_blank(state: State, at: usize) -> Result<Step, DumpError>
    ensures { result ≡ on_blank state at }
{
    match state {
        State::Between => Ok(Step::To(State::Between)),
        _ => Err(DumpError::Missing(at)),
    }
}

fn on_x(state: State, at: usize) -> Result<Step, DumpError>
    ensures { result ≡ on_x state at }
{
    match state {
        State::Zero => Ok(Step::To(State::Prefix)),
        _ => Err(DumpError::Bad(at)),
    }
}

fn step_at(state: State, c: u8, at: usize) -> Result<Step, DumpError>
    ensures { result ≡ step_at state c at }
{
    match kind_of(c) {
        Some(Kind::Digit(d)) => Ok(on_digit(state, d)),
        Some(Kind::Blank) => on_blank(state, at),
        Some(Kind::X) => on_x(state, at),
        None => Err(DumpError::Bad(at)),
    }
}

// What was read: where the text stands, how many bytes it said, and the first 128 of them.
#[derive(Drop)]
pub(crate) struct Reader {
    pub state: State,
    pub count: usize,
    pub bytes: [u8; 128],
}

impl Reader {
    fn take(&mut self, step: Step)
        requires { self.old.count + 1 < 2 ^ 64 }
        ensures state { self.new.state ≡ next (Ok step) }
        ensures count { self.new.count ≡ self.old.count + length (given (Ok step)) }
        ensures bytes { (self.new.count ≤ 128) → take self.new.count self.new.bytes ≡ take self.old.count self.old.bytes ++ given (Ok step) }
    {
        match step {
            Step::To(state) => self.state = state,
            Step::Byte(b) => {
                if self.count < 128 {
                    self.bytes[self.count] = b;
                }
                self.count += 1;
                self.state = State::Between;
            }
        }
    }

    // At the end of the text the bytes are an image where they are 128.
    fn finish(&self, at: usize, image: &mut [u8]) -> Result<(), DumpError>
        requires { length image.old ≡ 128 }
        ensures { (result ≡ ended self.now.state at self.now.count) × (image.new ≡ leave (ended self.now.state at self.now.count) self.now.bytes image.old) }
    {
        match self.state {
            State::Between if self.count == 128 => {
                image.copy_from_slice(&self.bytes);
                Ok(())
            }
            State::Between => Err(DumpError::Bytes(self.count)),
            _ => Err(DumpError::Missing(at)),
        }
    }
}

pub(crate) fn read_text(s: &[u8], image: &mut [u8]) -> Result<(), DumpError>
    requires { length image.old ≡ 128 }
    ensures { (result ≡ text_read s.now) × (image.new ≡ text_left s.now image.old) }
{
    let mut reader = Reader {
        state: State::Between,
        count: 0,
        bytes: [0; 128],
    };
    for (at, &c) in s.iter().enumerate() {
        let step = step_at(reader.state, c, at)?;
        reader.take(step);
    }
    reader.finish(s.len(), image)
}
