// The antenna switch and the reset pin: a record each, and no change of the image.
ghost use Rattle.std.specs.Prelude.{◌≡◌, [], ◌∷◌, ◌+◌, ◌≤◌, length};
ghost use Rattle.bus.specs.Steps.{RfSwitch, ResetPin};
ghost use Rattle.bus.specs.Lent.{Did, position};

use crate::Radio;
use crate::log::Kind;

// Where the antenna's switch stands.
#[derive(Clone, Copy, PartialEq, Eq)]
pub enum Antenna {
    Off,
    Receive,
    Transmit,
}

impl Antenna {
    fn position(self) -> u8
        ensures { result ≡ position self }
    {
        match self {
            Antenna::Off => 0,
            Antenna::Receive => 1,
            Antenna::Transmit => 2,
        }
    }
}

impl<'a> Radio<'a> {
    // The Rust's `disable_rf_switch`, `enable_rf_switch_rx` and `enable_rf_switch_tx`.
    pub fn set_rf_switch(&mut self, antenna: Antenna)
        requires { self.old.used + 3 ≤ length self.old.log.now }
        ensures { Did (RfSwitch (position antenna) ∷ []) self.old self.new }
    {
        self.append(Kind::RfSwitch, 0, antenna.position());
    }

    pub fn reset(&mut self)
        requires { self.old.used + 3 ≤ length self.old.log.now }
        ensures { Did (ResetPin ∷ []) self.old self.new }
    {
        self.append(Kind::ResetPin, 0, 0);
    }
}
