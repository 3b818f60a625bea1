// The two variants, and the constant tables that their data sheets give. What is right stands in specs/.
#![tactic(auto)]

ghost use Rattle.std.specs.Prelude.{◌≡◌, true, ◌<◌, length, get_or};
ghost use Rattle.sheets.specs.Modem.{hertz, bandwidth_code};
ghost use Rattle.sheets.specs.Reader.{reader_order};

#[derive(Clone, Copy, PartialEq, Eq)]
pub enum Variant {
    Sx1272,
    Sx1276,
}

// In Hz, in the order of the Rust's `Bandwidth`.
const BANDWIDTHS: [u32; 10] = [
    7_810, 10_420, 15_630, 20_830, 31_250, 41_670, 62_500, 125_000, 250_000, 500_000,
];

// A bandwidth that a variant has no code for. An Option is no plainer: who writes a code has judged the bandwidth, and the definition
// `bandwidth_code`, which demand 3's page cites, is over numbers.
pub const NO_CODE: u8 = 0xff;

const SX1272_BANDWIDTH_CODES: [u8; 10] = [
    NO_CODE, NO_CODE, NO_CODE, NO_CODE, NO_CODE, NO_CODE, NO_CODE, 0, 1, 2,
];

const SX1276_BANDWIDTH_CODES: [u8; 10] = [0, 1, 2, 3, 4, 5, 6, 7, 8, 9];

// The registers of a link in the reader's order, the oscillator's last.
const SX1272_READER_ORDER: [u8; 18] = [
    0x06, 0x07, 0x08, 0x09, 0x0a, 0x0e, 0x0f, 0x1d, 0x1e, 0x20, 0x21, 0x31, 0x33, 0x37, 0x39, 0x3b,
    0x5a, 0x58,
];

const SX1276_READER_ORDER: [u8; 20] = [
    0x06, 0x07, 0x08, 0x09, 0x0a, 0x0b, 0x0e, 0x0f, 0x1d, 0x1e, 0x26, 0x20, 0x21, 0x31, 0x33, 0x37,
    0x39, 0x3b, 0x4d, 0x4b,
];

// A bandwidth in Hz.
pub fn bandwidth_hertz(bw: u8) -> u32
    requires { bw < 10 }
    ensures { result ≡ hertz bw }
{
    BANDWIDTHS[bw as usize]
}

impl Variant {
    // The code of a bandwidth in RegModemConfig1, or NO_CODE.
    pub fn bandwidth_code(self, bw: u8) -> u8
        requires { bw < 10 }
        ensures { result ≡ bandwidth_code self bw }
    {
        match self {
            Variant::Sx1272 => SX1272_BANDWIDTH_CODES[bw as usize],
            Variant::Sx1276 => SX1276_BANDWIDTH_CODES[bw as usize],
        }
    }

    // The register that the reader looks at after i others.
    pub fn reader_order(self, i: usize) -> u8
        requires { i < length (reader_order self true) }
        ensures { result ≡ get_or (reader_order self true) i 0 }
    {
        match self {
            Variant::Sx1272 => SX1272_READER_ORDER[i],
            Variant::Sx1276 => SX1276_READER_ORDER[i],
        }
    }
}
