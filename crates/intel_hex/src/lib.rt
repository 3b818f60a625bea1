// Register images as Intel HEX: written in one layout, and read from any text of data records and an end record.
#![tactic(auto)]

ghost use Rattle.std.specs.Prelude.{◌≡◌, length};
ghost use Rattle.intel_hex.specs.Calls.{write_answer, write_leaves, read_answer, read_leaves};

use layout::put_layout;
use params::answers::HexError;
use params::mod_params::RadioError;
use places::Held;
use text::printing::Text;
use walk::walk;

mod digits;
pub mod fault_words;
mod layout;
mod places;
mod records;
mod walk;

// The bytes of a text of eight data records and the end record.
pub const TEXT_SIZE: usize = 364;

// Writes an image at the start of a lent text, and answers how many bytes it takes.
#[tactic(auto, unfolding(crate::specs::Calls::write_answer, crate::specs::Calls::write_leaves))]
pub fn write_hex(image: &[u8], text: &mut [u8]) -> Result<usize, RadioError>
    ensures { (result ≡ write_answer image.now (length text.old)) × (text.new ≡ write_leaves image.now text.old) }
{
    if image.len() != 128 {
        return Err(RadioError::BadImage);
    }
    if text.len() < TEXT_SIZE {
        return Err(RadioError::TextFull);
    }
    let mut out = Text {
        place: text,
        end: 0,
    };
    put_layout(image, &mut out);
    Ok(TEXT_SIZE)
}

// Fills a lent image from a text that sets each of its addresses once; any other text leaves it as it was.
#[tactic(auto, unfolding(crate::specs::Calls::read_answer, crate::specs::Calls::read_leaves))]
pub fn read_hex(text: &[u8], image: &mut [u8]) -> Result<(), HexError>
    ensures { (result ≡ read_answer text.now (length image.old)) × (image.new ≡ read_leaves text.now image.old) }
{
    if image.len() != 128 {
        return Err(HexError::Refused(RadioError::BadImage));
    }
    let mut held = Held::new();
    walk(text, &mut held)?;
    held.show(image);
    Ok(())
}
