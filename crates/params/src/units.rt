// Hertz and synthesizer steps, kept apart: the functions here, the reader's among them, are all that turns one into the other.
ghost use Rattle.std.specs.Prelude.{◌≡◌, ◌^◌, ◌<◌};
ghost use Rattle.sheets.specs.Frequency.{steps, frf_msb, frf_mid, frf_lsb, frf, read_back, lowest};

// A frequency.
#[derive(Clone, Copy, PartialEq, Eq)]
pub struct Hertz(pub u32);

// A count of synthesizer steps.
#[derive(Clone, Copy, PartialEq, Eq)]
pub struct Steps(pub u32);

impl Hertz {
    // The step rule.
    #[tactic(auto, unfolding(sheets::specs::Frequency::steps))]
    pub fn steps(self) -> Steps
        ensures { result.0 ≡ steps self.0 }
    {
        let hz = self.0 as u64;
        Steps((256 * hz / 15_625) as u32)
    }
}

impl Steps {
    // The count that RegFrf holds.
    pub fn from_frf(msb: u8, mid: u8, lsb: u8) -> Steps
        ensures { result.0 ≡ frf msb mid lsb }
    {
        Steps(((msb as u32) * 256 + mid as u32) * 256 + lsb as u32)
    }

    // The bytes that RegFrf takes of the count: its three registers by name, since the reader and a link's bytes ask for one at a time.
    pub fn frf_msb(self) -> u8
        ensures { result ≡ frf_msb self.0 }
    {
        (self.0 / 256 / 256 % 256) as u8
    }

    pub fn frf_mid(self) -> u8
        ensures { result ≡ frf_mid self.0 }
    {
        (self.0 / 256 % 256) as u8
    }

    pub fn frf_lsb(self) -> u8
        ensures { result ≡ frf_lsb self.0 }
    {
        (self.0 % 256) as u8
    }

    // The truncated read-back.
    #[tactic(auto, unfolding(sheets::specs::Frequency::read_back))]
    pub fn read_back(self) -> Hertz
        requires { self.0 < 2 ^ 24 }
        ensures { result.0 ≡ read_back self.0 }
    {
        let count = self.0 as u64;
        Hertz((15_625 * count / 256) as u32)
    }

    // The lowest frequency that has this count.
    #[tactic(auto, unfolding(sheets::specs::Frequency::lowest))]
    pub fn lowest(self) -> Hertz
        requires { self.0 < 2 ^ 24 }
        ensures { result.0 ≡ lowest self.0 }
    {
        let count = self.0 as u64;
        Hertz(((15_625 * count + 255) / 256) as u32)
    }
}
