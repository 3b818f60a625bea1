// Errors, modes and parameters: what the Rust's mod_params.rs declares, with our refusals after its errors.
ghost use Rattle.std.specs.Prelude.{◌≡◌};
ghost use Rattle.params.specs.Errors.{number_of};

use crate::units::Hertz;

// In the Rust's order; from FrequencyOutOfRange on they are ours.
#[derive(Clone, Copy, PartialEq, Eq)]
pub enum RadioError {
    SPI,
    Reset,
    RfSwitchRx,
    RfSwitchTx,
    Busy,
    Irq,
    DIO1,
    InvalidConfiguration,
    InvalidRadioMode,
    OpError(u8),
    InvalidBaseAddress(usize, usize),
    PayloadSizeUnexpected(usize),
    PayloadSizeMismatch(usize, usize),
    UnavailableSpreadingFactor,
    UnavailableBandwidth,
    InvalidBandwidthForFrequency,
    InvalidSF6ExplicitHeaderRequest,
    InvalidOutputPowerForFrequency,
    TransmitTimeout,
    ReceiveTimeout,
    DutyCycleUnsupported,
    RngUnsupported,
    FrequencyOutOfRange,
    LogFull,
    CarrierUnsupported,
    BadImage,
    NotALink,
    BadLine,
    BadHex,
    BadSum,
    WrongPlace,
    Incomplete,
    TextFull,
}

impl RadioError {
    // The number that callers are told.
    pub fn number(self) -> u8
        ensures { result ≡ number_of self }
    {
        match self {
            RadioError::SPI => 1,
            RadioError::Reset => 2,
            RadioError::RfSwitchRx => 3,
            RadioError::RfSwitchTx => 4,
            RadioError::Busy => 5,
            RadioError::Irq => 6,
            RadioError::DIO1 => 7,
            RadioError::InvalidConfiguration => 8,
            RadioError::InvalidRadioMode => 9,
            RadioError::OpError(_) => 10,
            RadioError::InvalidBaseAddress(_, _) => 11,
            RadioError::PayloadSizeUnexpected(_) => 12,
            RadioError::PayloadSizeMismatch(_, _) => 13,
            RadioError::UnavailableSpreadingFactor => 14,
            RadioError::UnavailableBandwidth => 15,
            RadioError::InvalidBandwidthForFrequency => 16,
            RadioError::InvalidSF6ExplicitHeaderRequest => 17,
            RadioError::InvalidOutputPowerForFrequency => 18,
            RadioError::TransmitTimeout => 19,
            RadioError::ReceiveTimeout => 20,
            RadioError::DutyCycleUnsupported => 21,
            RadioError::RngUnsupported => 22,
            RadioError::FrequencyOutOfRange => 23,
            RadioError::LogFull => 24,
            RadioError::CarrierUnsupported => 25,
            RadioError::BadImage => 26,
            RadioError::NotALink => 27,
            RadioError::BadLine => 28,
            RadioError::BadHex => 29,
            RadioError::BadSum => 30,
            RadioError::WrongPlace => 31,
            RadioError::Incomplete => 32,
            RadioError::TextFull => 41,
        }
    }
}

// Listening for a packet: for a number of symbols, on and on, or now and then, which these chips do not support.
#[derive(Clone, Copy, PartialEq, Eq)]
pub enum RxMode {
    Single(u16),
    Continuous,
    DutyCycle,
}

#[derive(Clone, Copy, PartialEq, Eq)]
pub enum RadioMode {
    Sleep,
    Standby,
    FrequencySynthesis,
    Transmit,
    Receive(RxMode),
    ChannelActivityDetection,
}

// Codes and flags are numbers here; a call that takes one judges it.
#[derive(Clone, Copy, PartialEq, Eq)]
pub struct ModulationParams {
    pub spreading_factor: u8,
    pub bandwidth: u8,
    pub coding_rate: u8,
    pub low_data_rate_optimize: u8,
    pub frequency: Hertz,
}

#[derive(Clone, Copy, PartialEq, Eq)]
pub struct PacketParams {
    pub preamble_length: u16,
    pub implicit_header: u8,
    pub payload_length: u8,
    pub crc_on: u8,
    pub iq_inverted: u8,
}

// The signal of a received packet, in dBm and dB.
#[derive(Clone, Copy, PartialEq, Eq)]
pub struct PacketStatus {
    pub rssi: i16,
    pub snr: i16,
}

// All that makes a link: what whole programming takes and the reader returns.
#[derive(Clone, Copy, PartialEq, Eq)]
pub struct Link {
    pub public_network: u8,
    pub spreading_factor: u8,
    pub bandwidth: u8,
    pub coding_rate: u8,
    pub frequency: Hertz,
    pub preamble_length: u16,
    pub implicit_header: u8,
    pub crc_on: u8,
    pub iq_inverted: u8,
    pub power: i32,
}
