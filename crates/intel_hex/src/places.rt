// The places of an image that records set: where a byte may not stand, bytes put at their places, what is not set.
ghost use Rattle.std.specs.Prelude.{◌≡◌, [], Ok, ◌≤◌, length};
ghost use Rattle.intel_hex.specs.Record.{address as address_of};
ghost use Rattle.intel_hex.specs.Faults.{is_end};
ghost use Rattle.intel_hex.specs.Reading.{Holds, Took, taken_fault, held_fault, free_in, Puts, shown};

use crate::records::Record;
use params::hex_faults::HexFault;

// What the records of a text set so far: the byte at each place that one of them has.
#[derive(Drop)]
pub(crate) struct Held {
    pub(crate) places: [Option<u8>; 128],
}

impl Held {
    pub(crate) fn new() -> Held
        ensures { Holds [] result.places }
    {
        Held {
            places: [None; 128],
        }
    }

    // The first of so many bytes that stands outside, or where a byte is set already.
    fn place_fault(&self, first: usize, count: usize) -> Result<(), HexFault>
        requires { (first ≤ 65535) × (count ≤ 255) }
        ensures { result ≡ taken_fault self.now.places first count }
    {
        for a in first..first + count {
            if a >= 128 {
                return Err(HexFault::Outside(a));
            }
            if self.places[a].is_some() {
                return Err(HexFault::Twice(a));
            }
        }
        Ok(())
    }

    // What is wrong with a record, in this order. An end record sets nothing.
    fn fault(&self, record: &Record<'_>, last: bool) -> Result<(), HexFault>
        ensures { result ≡ held_fault self.now.places last «record».now }
    {
        record.kind_fault(last)?;
        record.sum_fault()?;
        if record.is_end() {
            return Ok(());
        }
        self.place_fault(record.address(), record.count())
    }

    // A record without bytes may have any address.
    fn put_record(&mut self, record: &Record<'_>)
        requires { taken_fault self.old.places (address_of «record».now) (length «record».now.bytes) ≡ Ok tt }
        ensures { Puts «record».now self.old.places self.new.places }
    {
        let first = record.address();
        for i in 0..record.count() {
            self.places[first + i] = Some(record.byte(i));
        }
    }

    // Takes the record that a line says, and answers whether it is the end record.
    pub(crate) fn take_line(&mut self, line: &[u8], last: bool) -> Result<bool, HexFault>
        ensures { Took line.now last self.old.places result self.new.places }
    {
        let record = Record::read(line)?;
        self.fault(&record, last)?;
        if record.is_end() {
            return Ok(true);
        }
        self.put_record(&record);
        Ok(false)
    }

    // The lowest address that is not set.
    pub(crate) fn free_fault(&self) -> Result<(), HexFault>
        ensures { result ≡ free_in self.now.places }
    {
        for a in 0..128 {
            if self.places[a].is_none() {
                return Err(HexFault::Unset(a));
            }
        }
        Ok(())
    }

    pub(crate) fn show(&self, image: &mut [u8])
        requires { length image.old ≡ 128 }
        ensures { image.new ≡ shown self.now.places }
    {
        for i in 0..128 {
            image[i] = self.places[i].unwrap_or(0);
        }
    }
}
