// One turn of reading: a byte that is no digit of a number ends a field, or a line with its packet.
ghost use Rattle.std.specs.Prelude.{◌≡◌, false, [], ◌<◌};
ghost use Rattle.time_on_air.specs.Onward.{begun, goes_on, Turned, LineEnds};

use crate::fields::{Ended, ending};
use crate::totals::end_line;
use params::line_faults::LineFault;

pub const MOST_LINES: u64 = 50_000;

// Where a reading is: the lines that ended and the sums of their packets; and of the line that has not the numbers of
// the fields that ended, which field it is in, the number that is held of it, and whether a field is wrong, so that the
// line is skipped.
#[derive(Clone, Copy)]
pub struct Progress {
    pub lines: u64,
    pub sums: [u64; 10],
    pub numbers: [u64; 8],
    pub field: usize,
    pub held: u64,
    pub skipping: bool,
}

impl Progress {
    // Something was read of the line that has not ended.
    pub fn has_begun(&self) -> bool
        ensures { result ≡ begun self.now.skipping self.now.field self.now.held [] }
    {
        self.skipping || self.field != 0 || self.held != 0
    }

    // The eighth number of a line ends, and the line with it.
    fn line_ends(&mut self) -> Result<(), LineFault>
        requires { 0 < self.old.held }
        ensures { LineEnds self.old result self.new }
    {
        if self.lines >= MOST_LINES {
            return Err(LineFault::Late);
        }
        self.numbers[7] = self.held - 1;
        end_line(&mut self.sums, &self.numbers)?;
        self.lines += 1;
        self.field = 0;
        self.held = 0;
        Ok(())
    }

    pub fn take_byte(&mut self, b: u8) -> Result<(), LineFault>
        requires { goes_on self.old.held b ≡ false }
        ensures { Turned self.old b result self.new }
    {
        match ending(self.skipping, self.field, self.held, b) {
            Ended::Field => {
                self.numbers[self.field] = self.held - 1;
                self.field += 1;
                self.held = 0;
            }
            Ended::Line => return self.line_ends(),
            Ended::Wrong(k) => {
                self.field = k;
                self.skipping = true;
            }
            Ended::WrongLine(k) => return Err(LineFault::Form(k)),
        }
        Ok(())
    }
}
