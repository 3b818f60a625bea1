// The access log: one record of three bytes each, and what a write leaves in its register.
ghost use Rattle.std.specs.Prelude.{◌≡◌, [], ◌∷◌, ◌+◌, ◌≤◌, length, slice_index};
ghost use Rattle.params.specs.Addresses.{address};
ghost use Rattle.bus.specs.Access.{put3, stored};
ghost use Rattle.bus.specs.Steps.{Read};
ghost use Rattle.bus.specs.Lent.{kind_number, LogRoom, Logged};

use params::radio_kind_params::Register;

// What a record tells, by its number.
#[derive(Clone, Copy, PartialEq, Eq)]
pub enum Kind {
    Read,
    Write,
    FifoRead,
    FifoWrite,
    RfSwitch,
    ResetPin,
    SleepWrite,
}

impl Kind {
    pub fn number(self) -> u8
        ensures { result ≡ kind_number self }
    {
        match self {
            Kind::Read => 0,
            Kind::Write => 1,
            Kind::FifoRead => 2,
            Kind::FifoWrite => 3,
            Kind::RfSwitch => 4,
            Kind::ResetPin => 5,
            Kind::SleepWrite => 6,
        }
    }
}

// One record of three bytes; the place where the next one goes is returned.
pub fn append(log: &mut [u8], at: usize, kind: u8, addr: u8, data: u8) -> usize
    requires { at + 3 ≤ length log.old }
    ensures { (result ≡ at + 3) × (log.new ≡ put3 log.old at kind addr «data») }
{
    log[at] = kind;
    log[at + 1] = addr;
    log[at + 2] = data;
    at + 3
}

// The log of a call that reads alone, and how many bytes of it are used.
#[derive(Drop)]
pub struct Log<'a> {
    pub bytes: &'a mut [u8],
    pub used: usize,
}

impl<'a> Log<'a> {
    // What the register holds.
    pub fn read_register(&mut self, image: &[u8], register: Register) -> u8
        requires { LogRoom 1 self.old × (length image.now ≡ 128) }
        ensures value { result ≡ slice_index image.now (address register) }
        ensures done { Logged (Read (address register) ∷ []) image.now self.old self.new }
    {
        let addr = register.read_addr();
        let value = image[addr as usize];
        self.used = append(self.bytes, self.used, Kind::Read.number(), addr, value);
        value
    }
}

// What a register holds after a write: a 1 that is written to RegIrqFlags clears the flag.
pub fn stored(addr: u8, v: u8, old: u8) -> u8
    ensures { result ≡ stored addr v old }
{
    match addr {
        0x12 => (0xff - v) & old,
        _ => v,
    }
}
