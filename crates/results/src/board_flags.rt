// A board from its flags: 1 the SX1276, 2 TCXO, 4 tx_boost, 8 rx_boost.
use params::board::Board;
use sheets::Variant;

// Other bits are not looked at, so that every number is a board.
#[derive(Clone, Copy)]
pub struct BoardFlags(pub u8);

impl From<BoardFlags> for Board {
    ghost use Rattle.std.specs.Prelude.{◌≡◌};
    ghost use Rattle.results.specs.Boards.{board_of};

    ghost from_gives = { λ flags board. board ≡ board_of flags.0 };

    fn from(BoardFlags(flags): BoardFlags) -> Board {
        let variant = if flags % 2 == 1 {
            Variant::Sx1276
        } else {
            Variant::Sx1272
        };
        Board {
            variant,
            tcxo_used: flags / 2 % 2 == 1,
            tx_boost: flags / 4 % 2 == 1,
            rx_boost: flags / 8 % 2 == 1,
        }
    }
}
