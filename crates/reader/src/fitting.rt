// A guess on trial: whether it fits the registers that the reader has looked at.
ghost use Rattle.std.specs.Prelude.{◌≡◌, ◌&&◌, ◌≤◌, ◌<◌, take};
ghost use Rattle.page.specs.Page.{holds};
ghost use Rattle.page.specs.Links.{accepted};
ghost use Rattle.page.specs.Lora.{places_of};
ghost use Rattle.reader.specs.Tests.{registers, keeps};

use params::board::Board;
use params::mod_params::Link;
use programming::acceptance::AcceptedLink;
use sheets::Variant;

// How many registers of the order a board has.
pub fn registers(board: Board) -> usize
    ensures { result ≡ registers board }
{
    match (board.variant, board.tcxo_used) {
        (Variant::Sx1272, false) => 17,
        (Variant::Sx1272, true) => 18,
        (Variant::Sx1276, false) => 19,
        (Variant::Sx1276, true) => 20,
    }
}

// Whether an accepted link leaves a register as it is.
pub fn keeps(image: &[u8; 128], link: AcceptedLink, register: u8) -> bool
    requires { register < 128 }
    ensures { result ≡ keeps link.board link.link register image.now }
{
    let old = image[register as usize];
    link.byte_left(register, old) == old
}

// Whether an accepted link leaves the first n registers of the order as they are.
fn first_hold(image: &[u8; 128], link: AcceptedLink, n: usize) -> bool
    requires { n ≤ registers link.board }
    ensures { result ≡ holds (take n (places_of link.board)) link.link image.now }
{
    for i in 0..n {
        if !keeps(image, link, link.board.variant.reader_order(i)) {
            return false;
        }
    }
    true
}

// Whether a guess fits the first n registers: it is accepted, and they hold it.
pub fn fits(image: &[u8; 128], board: Board, guess: Link, n: usize) -> bool
    requires { n ≤ registers board }
    ensures { result ≡ (accepted board.variant guess && holds (take n (places_of board)) guess image.now) }
{
    match AcceptedLink::new(board, guess) {
        Some(link) => first_hold(image, link, n),
        None => false,
    }
}
