// All registers at once: the guess from them, and whether they hold it.
// Each register is named, so that the compiler has no choice left to make when it runs: with a loop over an array of
// them, which was tried, a call takes four times as long.
ghost use Rattle.std.specs.Prelude.{◌≡◌};
ghost use Rattle.page.specs.Page.{guess, holds};
ghost use Rattle.page.specs.Lora.{page, places_of};

use crate::fitting::keeps;
use crate::registers::{blank, learn};
use params::board::Board;
use params::mod_params::Link;
use programming::acceptance::AcceptedLink;

// The registers that tell something, in the reader's order; the last is the SX1272's RegPaDac.
pub fn guess(image: &[u8; 128], board: Board) -> Link
    ensures { result ≡ guess (page board) image.now }
{
    let guess = blank();
    let guess = learn(guess, board, 0x06, image[0x06]);
    let guess = learn(guess, board, 0x07, image[0x07]);
    let guess = learn(guess, board, 0x08, image[0x08]);
    let guess = learn(guess, board, 0x09, image[0x09]);
    let guess = learn(guess, board, 0x1d, image[0x1d]);
    let guess = learn(guess, board, 0x1e, image[0x1e]);
    let guess = learn(guess, board, 0x20, image[0x20]);
    let guess = learn(guess, board, 0x21, image[0x21]);
    let guess = learn(guess, board, 0x33, image[0x33]);
    let guess = learn(guess, board, 0x39, image[0x39]);
    learn(guess, board, 0x5a, image[0x5a])
}

// Whether an accepted link leaves the registers of either variant's order as they are; one that a board does not write
// it keeps. By `&`, since with so many `&&` the proof, which was tried, did not close.
pub fn holds(image: &[u8; 128], link: AcceptedLink) -> bool
    ensures { result ≡ holds (places_of link.board) link.link image.now }
{
    keeps(image, link, 0x06)
        & keeps(image, link, 0x07)
        & keeps(image, link, 0x08)
        & keeps(image, link, 0x09)
        & keeps(image, link, 0x0a)
        & keeps(image, link, 0x0b)
        & keeps(image, link, 0x0e)
        & keeps(image, link, 0x0f)
        & keeps(image, link, 0x1d)
        & keeps(image, link, 0x1e)
        & keeps(image, link, 0x20)
        & keeps(image, link, 0x21)
        & keeps(image, link, 0x26)
        & keeps(image, link, 0x31)
        & keeps(image, link, 0x33)
        & keeps(image, link, 0x37)
        & keeps(image, link, 0x39)
        & keeps(image, link, 0x3b)
        & keeps(image, link, 0x4b)
        & keeps(image, link, 0x4d)
        & keeps(image, link, 0x58)
        & keeps(image, link, 0x5a)
}
