// A pack's registers from Intel HEX, raw bytes or hex text, and what is wrong with an input.
#![tactic(auto)]

ghost use Rattle.std.specs.Prelude.{◌≡◌, length};
ghost use Rattle.dump.specs.Dump.{is_raw, read_of, left_of};

use characters::could_be_hex;
use hex_text::read_text;
use params::hex_faults::HexFault;
use records::{is_records, read_records};

mod characters;
pub mod faults;
mod hex_text;
mod records;

// Why an input holds no image: it says another number of bytes than 128, or at some place a digit is missing or a
// character is bad, or a line of records is bad.
#[derive(Clone, Copy, PartialEq, Eq)]
pub enum DumpError {
    Bytes(usize),
    Missing(usize),
    Bad(usize),
    Record(HexFault, usize),
}

// Raw bytes, and not hex text that happens to be of 128 characters.
#[tactic(auto, using(text::proofs::reading::Tests::all_passes), unfolding(crate::specs::Dump::is_raw))]
fn is_raw(input: &[u8]) -> bool
    ensures { result ≡ is_raw input.now }
{
    input.len() == 128 && !input.iter().all(|&c| could_be_hex(c))
}

// Puts the image that the input holds into a lent place, which stays as it was where it holds none.
#[tactic(auto, using(crate::proofs::Raw::raw_size))]
pub fn read(input: &[u8], image: &mut [u8]) -> Result<(), DumpError>
    requires { length image.old ≡ 128 }
    ensures { (result ≡ read_of input.now) × (image.new ≡ left_of input.now image.old) }
{
    if is_records(input) {
        return read_records(input, image);
    }
    if is_raw(input) {
        image.copy_from_slice(input);
        return Ok(());
    }
    read_text(input, image)
}
