// The words that say a board on a command line: its chip, its oscillator, its amplifiers.
ghost use Rattle.std.specs.Prelude.{◌≡◌};
ghost use Rattle.board_words.specs.Words.{word_of};

use text::reading::same;

#[derive(Clone, Copy, PartialEq, Eq)]
pub enum Word {
    Sx1272,
    Sx1276,
    Tcxo,
    Boost,
    RxBoost,
}

#[tactic(auto, unfolding(crate::specs::Words::word_of))]
pub fn board_word(s: &[u8]) -> Option<Word>
    ensures { result ≡ word_of s.now }
{
    match s {
        _ if same(s, b"1272") => Some(Word::Sx1272),
        _ if same(s, b"1276") => Some(Word::Sx1276),
        _ if same(s, b"tcxo") => Some(Word::Tcxo),
        _ if same(s, b"boost") => Some(Word::Boost),
        _ if same(s, b"rxboost") => Some(Word::RxBoost),
        _ => None,
    }
}
