// One record, and what is wrong with it by itself: its form, its type, its sum.
ghost use Rattle.std.specs.Prelude.{◌≡◌, ◌+◌, ◌<◌, ◌≤◌, length, get_or};
ghost use Rattle.intel_hex.specs.Record.{address as address_of, right_sum, said, is_counted, record_in};
ghost use Rattle.intel_hex.specs.Faults.{form_fault, end_fault, kind_fault, sum_fault, is_end};
ghost use Rattle.intel_hex.specs.Reading.{giving};

use crate::digits::{byte_at, digits_of, is_digit_line};
use params::hex_faults::HexFault;
use std::marker::Model;

const END: u8 = 1;

// A record by its digits, which say as many bytes as the first of them tells, and five more. A clause sees what they
// say.
#[derive(Drop)]
pub(crate) struct Record<'a> {
    digits: &'a [u8],
}

impl<'a> Model for Record<'a> {
    ghost use Rattle.std.specs.Prelude.{◌≡◌, true};
    ghost use Rattle.intel_hex.specs.Record.{Record, said, is_counted, record_of};

    ghost Value = { Record };

    ghost view = { λ r. record_of (said r.digits.now) };

    ghost invariant = { λ r. is_counted (said r.digits.now) ≡ true };
}

// There are as many bytes as the first one says, and five more.
fn is_counted(digits: &[u8]) -> bool
    ensures { result ≡ is_counted (said digits.now) }
{
    let n = digits.len() / 2;
    n > 0 && n == byte_at(digits, 0) as usize + 5
}

// What an end record may not have: bytes, an address, text behind it.
fn end_fault(count: usize, address: usize, last: bool) -> Result<(), HexFault>
    ensures { result ≡ end_fault count address last }
{
    if count != 0 || address != 0 {
        return Err(HexFault::EndHolds);
    }
    if last { Ok(()) } else { Err(HexFault::After) }
}

impl<'a> Record<'a> {
    // The record that a line says.
    pub(crate) fn read(line: &'a [u8]) -> Result<Record<'a>, HexFault>
        ensures { result ≡ giving (form_fault line.now) (record_in line.now) }
    {
        if !is_digit_line(line) {
            return Err(HexFault::Form);
        }
        let digits = digits_of(line);
        if !is_counted(digits) {
            return Err(HexFault::Count);
        }
        Ok(Record { digits })
    }

    pub(crate) fn count(&self) -> usize
        ensures { (result ≡ length self.now.bytes) × (result ≤ 255) }
    {
        byte_at(self.digits, 0) as usize
    }

    pub(crate) fn address(&self) -> usize
        ensures { (result ≡ address_of self.now) × (result ≤ 65535) }
    {
        byte_at(self.digits, 1) as usize * 256 + byte_at(self.digits, 2) as usize
    }

    pub(crate) fn is_end(&self) -> bool
        ensures { result ≡ is_end self.now }
    {
        byte_at(self.digits, 3) == END
    }

    // Its byte i.
    pub(crate) fn byte(&self, i: usize) -> u8
        requires { i < length self.now.bytes }
        ensures { result ≡ get_or self.now.bytes i 0 }
    {
        byte_at(self.digits, i + 4)
    }

    pub(crate) fn kind_fault(&self, last: bool) -> Result<(), HexFault>
        ensures { result ≡ kind_fault last self.now }
    {
        let kind = byte_at(self.digits, 3);
        if kind > END {
            return Err(HexFault::Kind(kind));
        }
        if kind != END {
            return Ok(());
        }
        end_fault(self.count(), self.address(), last)
    }

    // The sum that is right for its other bytes.
    fn right_sum(&self) -> u8
        ensures { result ≡ right_sum self.now }
    {
        let mut total: u8 = 0;
        for k in 0..self.count() + 4 {
            total = total.wrapping_add(byte_at(self.digits, k));
        }
        total.wrapping_neg()
    }

    pub(crate) fn sum_fault(&self) -> Result<(), HexFault>
        ensures { result ≡ sum_fault self.now }
    {
        let right = self.right_sum();
        if byte_at(self.digits, self.count() + 4) == right {
            Ok(())
        } else {
            Err(HexFault::Sum(right))
        }
    }
}
