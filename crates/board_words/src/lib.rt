// The words that say a board on the command line, and the board that they make.
#![tactic(auto)]

ghost use Rattle.std.specs.Prelude.{◌≡◌};
ghost use Rattle.board_words.specs.Boards.{plain as plain_board, worded};
ghost use Rattle.board_words.specs.Words.{word_of};

use crate::words::{Word, board_word};
use params::board::Board;
use sheets::Variant;

pub mod words;

// An SX1276 with nothing added. A function and no derived `Default`: its clause promises which board it is.
pub fn plain() -> Board
    ensures { result ≡ plain_board }
{
    Board {
        variant: Variant::Sx1276,
        tcxo_used: false,
        tx_boost: false,
        rx_boost: false,
    }
}

// A word of the variant, or of what is added; no board where the word is neither.
pub fn with_word(old: Board, w: &[u8]) -> Option<Board>
    ensures { result ≡ worded old (word_of w.now) }
{
    let word = board_word(w)?;
    Some(match word {
        Word::Sx1272 => Board {
            variant: Variant::Sx1272,
            ..old
        },
        Word::Sx1276 => Board {
            variant: Variant::Sx1276,
            ..old
        },
        Word::Tcxo => Board {
            tcxo_used: true,
            ..old
        },
        Word::Boost => Board {
            tx_boost: true,
            ..old
        },
        Word::RxBoost => Board {
            rx_boost: true,
            ..old
        },
    })
}
