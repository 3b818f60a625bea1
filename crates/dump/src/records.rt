// Intel HEX: whether an input is a text of records, and what it holds.
ghost use Rattle.std.specs.Prelude.{◌≡◌, length};
ghost use Rattle.intel_hex.specs.Faults.{outcome};
ghost use Rattle.intel_hex.specs.Calls.{taken};
ghost use Rattle.dump.specs.Dump.{is_records, records_read};

use crate::DumpError;
use crate::characters::in_records;
use intel_hex::read_hex;
use params::answers::HexError;

// Only 128 bytes are looked at whole: they may be a raw image whose first register holds a colon.
#[tactic(auto, using(text::proofs::reading::Tests::past, text::proofs::reading::Tests::all_passes), unfolding(crate::specs::Dump::is_records))]
pub(crate) fn is_records(input: &[u8]) -> bool
    ensures { result ≡ is_records input.now }
{
    input.first() == Some(&b':') && (input.len() != 128 || input.iter().all(|&c| in_records(c)))
}

// A lent image of 128 bytes is never refused.
pub(crate) fn read_records(input: &[u8], image: &mut [u8]) -> Result<(), DumpError>
    requires { length image.old ≡ 128 }
    ensures { (result ≡ records_read (outcome input.now)) × (image.new ≡ taken (outcome input.now) image.old) }
{
    match read_hex(input, image) {
        Ok(()) => Ok(()),
        Err(HexError::Bad(fault, line)) => Err(DumpError::Record(fault, line)),
        Err(HexError::Refused(_)) => unreachable!(),
    }
}
