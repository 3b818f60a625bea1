// What arguments an operation takes: of which kinds, in their order.
ghost use Rattle.std.specs.Prelude.{◌≡◌, ◌≤◌, length};
ghost use Rattle.commands.specs.Operations.{kinds, most as most_of};

use crate::Operation;
use crate::signatures::Kind::{Byte, Count, Hertz, Power, Word};

// A number of 8, 16, 32 or 64 bits, and one of 32 bits with a sign.
#[derive(Clone, Copy, PartialEq, Eq)]
pub enum Kind {
    Byte,
    Word,
    Hertz,
    Count,
    Power,
}

impl Kind {
    // The largest value. A power may be as far below zero too.
    pub fn most(self) -> u64
        ensures { result ≡ most_of self }
    {
        match self {
            Byte => u8::MAX as u64,
            Word => u16::MAX as u64,
            Hertz => u32::MAX as u64,
            Count => u64::MAX,
            Power => i32::MAX as u64,
        }
    }
}

pub fn kinds(o: Operation) -> &'static [Kind]
    ensures value { result.now ≡ kinds o }
    ensures few { length result.now ≤ 10 }
{
    match o {
        Operation::InitLora => &[Byte],
        Operation::CreateModulationParams => &[Byte, Byte, Byte, Hertz],
        Operation::CreatePacketParams => &[Word, Byte, Byte, Byte, Byte, Byte],
        Operation::SetTxRxBufferBaseAddress => &[Count, Count],
        Operation::SetTxPowerAndRampTime => &[Power, Byte],
        Operation::SetModulationParams => &[Byte, Byte, Byte, Byte],
        Operation::SetPacketParams => &[Word, Byte, Byte, Byte, Byte],
        Operation::SetChannel => &[Hertz],
        Operation::DoRx => &[Byte, Word],
        Operation::SetIrqParams => &[Byte, Byte],
        Operation::ProcessIrqEvent => &[Byte, Byte, Byte],
        Operation::Program => &[Byte, Byte, Byte, Byte, Hertz, Word, Byte, Byte, Byte, Power],
        _ => &[],
    }
}
