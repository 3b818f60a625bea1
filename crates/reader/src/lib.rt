// The link reader: the link that an image holds, and the register that rules out that it holds one.
#![tactic(auto)]

ghost use Rattle.std.specs.Prelude.{◌≡◌, ◌<◌};
ghost use Rattle.params.specs.Answers.{tells_link};
ghost use Rattle.page.specs.Page.{read};
ghost use Rattle.page.specs.Lora.{page};
ghost use Rattle.page.specs.Reading.{tells_reading, read_link};
ghost use Rattle.reader.specs.Look.{Examined, LastExamined};

use crate::fitting::fits;
use crate::registers::{blank, learn};
use crate::whole::{guess, holds};
use params::board::Board;
use params::mod_params::{Link, RadioError};
use programming::acceptance::AcceptedLink;

pub mod fitting;
pub mod power_shown;
pub mod registers;
pub mod whole;

// How many registers have to be looked at, one after the other, for as long as a guess fits them: on an image that
// is no link, the last of them is the one that rules it out.
pub fn examined(image: &[u8; 128], board: Board) -> usize
    ensures { Examined board image.now result }
{
    let count = fitting::registers(board);
    let mut guess = blank();
    for i in 0..count {
        let register = board.variant.reader_order(i);
        guess = learn(guess, board, register, image[register as usize]);
        if !fits(image, board, guess, i + 1) {
            return i + 1;
        }
    }
    count
}

// The last register that the reader looks at: on an image that is no link, the one that rules it out.
pub fn last_examined(image: &[u8; 128], board: Board) -> u8
    ensures last_examined { LastExamined board image.now result }
    ensures upper_bound { result < 128 }
{
    board.variant.reader_order(examined(image, board) - 1)
}

// The guess from all registers is the link, if it is accepted and they hold it.
#[tactic(auto, unfolding(page::specs::Page::read, page::specs::Page::fits))]
fn read_registers(image: &[u8; 128], board: Board) -> Result<Link, RadioError>
    ensures { tells_link result ≡ tells_reading (read (page board) image.now) }
{
    let link = guess(image, board);
    match AcceptedLink::new(board, link) {
        Some(link) if holds(image, link) => Ok(link.link),
        _ => Err(RadioError::NotALink),
    }
}

pub fn read_link(image: &[u8], board: Board) -> Result<Link, RadioError>
    ensures { tells_link result ≡ read_link board image.now }
{
    match image.as_array() {
        Some(image) => read_registers(image, board),
        None => Err(RadioError::BadImage),
    }
}
