// The bus: one access each, its record in the log and its effect on the image; the switch, the FIFO, and who is let on.
#![tactic(auto)]

ghost use Rattle.std.specs.Prelude.{◌≡◌, [], ◌∷◌, ◌+◌, ◌<◌, ◌≤◌, length, slice_index};
ghost use Rattle.params.specs.Addresses.{address};
ghost use Rattle.bus.specs.Steps.{Read, Write, Modify, SleepWrite};
ghost use Rattle.bus.specs.Lent.{kind_number, Room, Recorded, Stored, Did};

use crate::log::{Kind, append, stored};
use params::radio_kind_params::Register;

pub mod admit;
pub mod bursts;
pub mod fifo;
pub mod log;
pub mod pins;

// What a call is lent: the registers as the host knows them, the log, and how many bytes of it are used.
#[derive(Drop)]
pub struct Radio<'a> {
    pub image: &'a mut [u8],
    pub log: &'a mut [u8],
    pub used: usize,
}

impl<'a> Radio<'a> {
    pub(crate) fn append(&mut self, kind: Kind, addr: u8, data: u8)
        requires { self.old.used + 3 ≤ length self.old.log.now }
        ensures { Recorded (kind_number kind) addr «data» self.old self.new }
    {
        self.used = append(self.log, self.used, kind.number(), addr, data);
    }

    // One write of either kind: its record in the log, and what it leaves in the image.
    fn write_kind(&mut self, kind: Kind, addr: u8, v: u8)
        requires { (self.old.used + 3 ≤ length self.old.log.now) × (addr < length self.old.image.now) }
        ensures { Stored (kind_number kind) addr v self.old self.new }
    {
        let old = self.image[addr as usize];
        self.image[addr as usize] = stored(addr, v, old);
        self.append(kind, addr, v);
    }

    // What the register holds.
    pub fn read_register(&mut self, register: Register) -> u8
        requires { Room 1 self.old }
        ensures value { result ≡ slice_index self.old.image.now (address register) }
        ensures done { Did (Read (address register) ∷ []) self.old self.new }
    {
        let addr = register.read_addr();
        let value = self.image[addr as usize];
        self.append(Kind::Read, addr, value);
        value
    }

    pub fn write_register(&mut self, register: Register, v: u8)
        requires { Room 1 self.old }
        ensures { Did (Write (address register) v ∷ []) self.old self.new }
    {
        self.write_kind(Kind::Write, register.read_addr(), v);
    }

    // A write after which the host does not wait for the radio.
    pub fn write_sleep(&mut self, register: Register, v: u8)
        requires { Room 1 self.old }
        ensures { Did (SleepWrite (address register) v ∷ []) self.old self.new }
    {
        self.write_kind(Kind::SleepWrite, register.read_addr(), v);
    }

    // A read, and a write of what was read with the bits outside `keep` replaced by `bits`.
    pub fn modify_register(&mut self, register: Register, keep: u8, bits: u8)
        requires { Room 2 self.old }
        ensures { Did (Modify (address register) keep bits ∷ []) self.old self.new }
    {
        let old = self.read_register(register);
        self.write_register(register, (keep & old) | bits);
    }
}
