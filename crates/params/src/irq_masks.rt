// The flags of RegIrqFlags that decide an outcome, by name. The Rust's radio_kind_params.rs has them.
ghost use Rattle.std.specs.Prelude.{◌≡◌};
ghost use Rattle.sheets.specs.Interrupts.{raised};
ghost use Rattle.params.specs.Flags.{flag_of, flag_mask};

#[derive(Clone, Copy, PartialEq, Eq)]
pub enum IrqMask {
    CADActivityDetected,
    CADDone,
    TxDone,
    HeaderValid,
    RxDone,
    RxTimeout,
}

impl IrqMask {
    pub fn value(self) -> u8
        ensures { result ≡ flag_mask self }
    {
        match self {
            IrqMask::CADActivityDetected => 0x01,
            IrqMask::CADDone => 0x04,
            IrqMask::TxDone => 0x08,
            IrqMask::HeaderValid => 0x10,
            IrqMask::RxDone => 0x40,
            IrqMask::RxTimeout => 0x80,
        }
    }

    pub fn is_set_in(self, flags: u8) -> bool
        ensures { result ≡ raised (flag_of self) flags }
    {
        let mask = self.value();
        mask & flags == mask
    }
}
