// One walk over a text's records, up to the end record or the first that is bad.
ghost use Rattle.std.specs.Prelude.{◌≡◌, [], ◌+◌, ◌≤◌, ◌<◌, length};
ghost use Rattle.intel_hex.specs.Faults.{outcome};
ghost use Rattle.intel_hex.specs.Calls.{answered};
ghost use Rattle.intel_hex.specs.Reading.{Holds, Shown, free_in, ended_as};

use crate::places::Held;
use params::answers::HexError;
use params::hex_faults::HexFault;
use text::bytes::find;

// The end record stands in this line.
fn ended(held: &Held, line: usize) -> Result<(), HexError>
    ensures { result ≡ ended_as (free_in held.now.places) line }
{
    held.free_fault()
        .map_err(|fault| HexError::Bad(fault, line))
}

pub(crate) fn walk(text: &[u8], held: &mut Held) -> Result<(), HexError>
    requires { Holds [] held.old.places }
    ensures { (result ≡ answered (outcome text.now)) × Shown (outcome text.now) held.new.places }
{
    let mut rest = text;
    let mut line = 1;
    while rest.len() > 0 {
        let Some(end) = find(rest, b'\n') else {
            return Err(HexError::Bad(HexFault::Open, line));
        };
        match held.take_line(&rest[..end], end + 1 == rest.len()) {
            Err(fault) => return Err(HexError::Bad(fault, line)),
            Ok(true) => return ended(held, line),
            Ok(false) => {}
        }
        rest = &rest[end + 1..];
        line += 1;
    }
    Err(HexError::Bad(HexFault::NoEnd, line))
}
