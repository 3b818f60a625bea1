// The registers that the operations use, as the Rust's radio_kind_params.rs names them.
ghost use Rattle.std.specs.Prelude.{◌≡◌, ◌+◌};
ghost use Rattle.params.specs.Addresses.{address};

#[derive(Clone, Copy, PartialEq, Eq)]
pub enum Register {
    RegFifo,
    RegOpMode,
    RegFrfMsb,
    RegFrfMid,
    RegFrfLsb,
    RegPaConfig,
    RegPaRamp,
    RegOcp,
    RegLna,
    RegFifoAddrPtr,
    RegFifoTxBaseAddr,
    RegFifoRxBaseAddr,
    RegFifoRxCurrentAddr,
    RegIrqFlagsMask,
    RegIrqFlags,
    RegRxNbBytes,
    RegPktSnrValue,
    RegPktRssiValue,
    RegModemConfig1,
    RegModemConfig2,
    RegSymbTimeoutLsb,
    RegPreambleMsb,
    RegPreambleLsb,
    RegPayloadLength,
    RegModemConfig3,
    RegDetectionOptimize,
    RegInvertiq,
    RegDetectionThreshold,
    RegSyncWord,
    RegInvertiq2,
    RegDioMapping1,
    RegPaDacSX1272,
    RegPaDacSX1276,
    RegTcxoSX1276,
    RegTcxoSX1272,
}

impl Register {
    pub fn read_addr(self) -> u8
        ensures { result ≡ address self }
    {
        match self {
            Register::RegFifo => 0x00,
            Register::RegOpMode => 0x01,
            Register::RegFrfMsb => 0x06,
            Register::RegFrfMid => 0x07,
            Register::RegFrfLsb => 0x08,
            Register::RegPaConfig => 0x09,
            Register::RegPaRamp => 0x0a,
            Register::RegOcp => 0x0b,
            Register::RegLna => 0x0c,
            Register::RegFifoAddrPtr => 0x0d,
            Register::RegFifoTxBaseAddr => 0x0e,
            Register::RegFifoRxBaseAddr => 0x0f,
            Register::RegFifoRxCurrentAddr => 0x10,
            Register::RegIrqFlagsMask => 0x11,
            Register::RegIrqFlags => 0x12,
            Register::RegRxNbBytes => 0x13,
            Register::RegPktSnrValue => 0x19,
            Register::RegPktRssiValue => 0x1a,
            Register::RegModemConfig1 => 0x1d,
            Register::RegModemConfig2 => 0x1e,
            Register::RegSymbTimeoutLsb => 0x1f,
            Register::RegPreambleMsb => 0x20,
            Register::RegPreambleLsb => 0x21,
            Register::RegPayloadLength => 0x22,
            Register::RegModemConfig3 => 0x26,
            Register::RegDetectionOptimize => 0x31,
            Register::RegInvertiq => 0x33,
            Register::RegDetectionThreshold => 0x37,
            Register::RegSyncWord => 0x39,
            Register::RegInvertiq2 => 0x3b,
            Register::RegDioMapping1 => 0x40,
            Register::RegPaDacSX1272 => 0x5a,
            Register::RegPaDacSX1276 => 0x4d,
            Register::RegTcxoSX1276 => 0x4b,
            Register::RegTcxoSX1272 => 0x58,
        }
    }

    // The first byte that a host puts on the bus for a write: bit 7 tells it from a read.
    pub fn write_addr(self) -> u8
        ensures { result ≡ address self + 128 }
    {
        self.read_addr() + 0x80
    }
}
