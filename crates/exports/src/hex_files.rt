// Register images as Intel HEX: an image written as a text, and read from one.
ghost use Rattle.std.specs.Prelude.{◌≡◌, length};
ghost use Rattle.params.specs.Answers.{tells_write_hex, tells_read_hex};
ghost use Rattle.intel_hex.specs.Calls.{write_answer, write_leaves, read_answer, read_leaves};
ghost use Rattle.results.specs.Results.{Tells};

use params::mod_params::RadioError;
use results::answers::told;

// Value: the bytes of the text.
#[unsafe(no_mangle)]
pub extern "C" fn sx127x_write_hex(image: &[u8], text: &mut [u8], results: &mut [u64]) -> i32
    ensures { Tells (tells_write_hex (write_answer image.now (length text.old))) 0 results.old result results.new × (text.new ≡ write_leaves image.now text.old) }
{
    let answer = intel_hex::write_hex(image, text);
    told(results, 0, answer)
}

// No values: which record is bad is not told.
#[unsafe(no_mangle)]
pub extern "C" fn sx127x_read_hex(text: &[u8], image: &mut [u8], results: &mut [u64]) -> i32
    ensures { Tells (tells_read_hex (read_answer text.now (length image.old))) 0 results.old result results.new × (image.new ≡ read_leaves text.now image.old) }
{
    let answer = intel_hex::read_hex(text, image);
    told(results, 0, answer.map_err(RadioError::from))
}
