// What is written to registers, by name: modes, ramp times, gains. The Rust's radio_kind_params.rs has them.
ghost use Rattle.std.specs.Prelude.{◌≡◌, true, false};
ghost use Rattle.sheets.specs.Receive.{lna};
ghost use Rattle.params.specs.Values.{lora_mode, ramp_code};

// What the radio does.
#[derive(Clone, Copy, PartialEq, Eq)]
pub enum LoRaMode {
    Sleep,
    Standby,
    Tx,
    RxContinuous,
    RxSingle,
    Cad,
}

impl LoRaMode {
    // The mode with the LoRa flag.
    pub fn value(self) -> u8
        ensures { result ≡ lora_mode self }
    {
        match self {
            LoRaMode::Sleep => 0x80,
            LoRaMode::Standby => 0x81,
            LoRaMode::Tx => 0x83,
            LoRaMode::RxContinuous => 0x85,
            LoRaMode::RxSingle => 0x86,
            LoRaMode::Cad => 0x87,
        }
    }
}

// How fast the amplifier comes up: before a transmission, or when a link is programmed.
#[derive(Clone, Copy, PartialEq, Eq)]
pub enum RampTime {
    Ramp250Us,
    Ramp40Us,
}

impl RampTime {
    pub fn value(self) -> u8
        ensures { result ≡ ramp_code self }
    {
        match self {
            RampTime::Ramp250Us => 0x04,
            RampTime::Ramp40Us => 0x09,
        }
    }
}

// The highest gain of the receive amplifier, the only one that the operations use.
#[derive(Clone, Copy, PartialEq, Eq)]
pub struct LnaGain;

impl LnaGain {
    pub fn value() -> u8
        ensures { result ≡ lna false }
    {
        0x20
    }

    pub fn boosted_value() -> u8
        ensures { result ≡ lna true }
    {
        0x23
    }
}
