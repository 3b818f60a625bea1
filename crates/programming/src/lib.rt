// Whole programming of a link: it is refused, or its steps are done; and the byte that it leaves in one register.
#![tactic(auto, using(bus::proofs::admit::Calls::rooms))]

ghost use Rattle.params.specs.Answers.{tells_done};
ghost use Rattle.bus.specs.Lent.{Calls};
ghost use Rattle.operations.specs.Programming.{program_link};

use crate::acceptance::{AcceptedLink, link_refusal};
use bus::Radio;
use params::board::Board;
use params::mod_params::{Link, RadioError};
use variants::records::program_records;

pub mod acceptance;
pub mod bytes_left;
pub mod writes;

pub fn program(radio: &mut Radio<'_>, board: Board, link: Link) -> Result<(), RadioError>
    ensures { Calls (program_link board link) (tells_done result) radio.old radio.new }
{
    radio.admit(link_refusal(board.variant, link), program_records(board))?;
    AcceptedLink { board, link }.write(radio);
    Ok(())
}
