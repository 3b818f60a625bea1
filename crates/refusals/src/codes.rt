// Codes: whether a number names a case. One that names none is 8.
ghost use Rattle.std.specs.Prelude.{◌≡◌};
ghost use Rattle.refusals.specs.Refusals.{named, spreading_factor, bandwidth, coding_rate, flag};

use params::mod_params::RadioError;

fn named(code: u8, first: u8, last: u8) -> Result<(), RadioError>
    ensures { result ≡ named first last code }
{
    if first <= code && code <= last {
        Ok(())
    } else {
        Err(RadioError::InvalidConfiguration)
    }
}

pub fn spreading_factor(code: u8) -> Result<(), RadioError>
    ensures { result ≡ spreading_factor code }
{
    named(code, 5, 12)
}

pub fn bandwidth(code: u8) -> Result<(), RadioError>
    ensures { result ≡ bandwidth code }
{
    named(code, 0, 9)
}

pub fn coding_rate(code: u8) -> Result<(), RadioError>
    ensures { result ≡ coding_rate code }
{
    named(code, 1, 4)
}

pub fn flag(code: u8) -> Result<(), RadioError>
    ensures { result ≡ flag code }
{
    named(code, 0, 1)
}
