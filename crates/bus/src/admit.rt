// The one place that decides whether a call goes on.
ghost use Rattle.std.specs.Prelude.{◌≡◌, ◌+◌, ◌*◌, ◌<◌, nat_le};
ghost use Rattle.refusals.specs.Refusals.{unless};
ghost use Rattle.bus.specs.Call.{well_formed, admitted, admitted_fifo};

use crate::Radio;
use crate::log::Log;
use params::mod_params::RadioError;

fn well_formed(image: usize, log: usize, used: usize) -> bool
    ensures { result ≡ well_formed image log used }
{
    image == 128 && log % 3 == 0 && used % 3 == 0 && used <= log
}

fn room(free: usize, records: u8) -> Result<(), RadioError>
    ensures { result ≡ unless (nat_le (3 * records) free) RadioError.LogFull }
{
    if free < 3 * records as usize {
        return Err(RadioError::LogFull);
    }
    Ok(())
}

// The first refusal: a bad image or log, then what the arguments gave, then a log with no room for the records.
pub fn admit(
    image: &[u8],
    log: &[u8],
    used: usize,
    asked: Result<(), RadioError>,
    records: u8,
) -> Result<(), RadioError>
    ensures { result ≡ admitted asked (used + 3 * records) image.now log.now used }
{
    if !well_formed(image.len(), log.len(), used) {
        return Err(RadioError::BadImage);
    }
    let fits = room(log.len() - used, records);
    asked.and(fits)
}

// The same for a call that is lent a FIFO too.
pub fn admit_fifo(
    image: &[u8],
    fifo: &[u8],
    log: &[u8],
    used: usize,
    asked: Result<(), RadioError>,
    records: u8,
) -> Result<(), RadioError>
    ensures { result ≡ admitted_fifo asked (used + 3 * records) image.now fifo.now log.now used }
{
    if fifo.len() != 256 {
        return Err(RadioError::BadImage);
    }
    admit(image, log, used, asked, records)
}

impl<'a> Log<'a> {
    pub fn admit(
        &self,
        image: &[u8],
        asked: Result<(), RadioError>,
        records: u8,
    ) -> Result<(), RadioError>
        ensures { result ≡ admitted asked (self.now.used + 3 * records) image.now self.now.bytes.now self.now.used }
    {
        admit(image, self.bytes, self.used, asked, records)
    }
}

impl<'a> Radio<'a> {
    pub fn admit(&self, asked: Result<(), RadioError>, records: u8) -> Result<(), RadioError>
        ensures { result ≡ admitted asked (self.now.used + 3 * records) self.now.image.now self.now.log.now self.now.used }
    {
        admit(self.image, self.log, self.used, asked, records)
    }

    pub fn admit_fifo(
        &self,
        fifo: &[u8],
        asked: Result<(), RadioError>,
        records: u8,
    ) -> Result<(), RadioError>
        ensures { result ≡ admitted_fifo asked (self.now.used + 3 * records) self.now.image.now fifo.now self.now.log.now self.now.used }
    {
        admit_fifo(self.image, fifo, self.log, self.used, asked, records)
    }
}
