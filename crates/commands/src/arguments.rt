// Arguments: whether a text has an operation's, and what they are.
ghost use Rattle.std.specs.Prelude.{◌≡◌, ◌≤◌};
ghost use Rattle.text.specs.Decimal.{number_of, signed_of};
ghost use Rattle.commands.specs.Operations.{kinds as kinds_of, most, byte as byte_most, word as word_most, hertz as hertz_most, count as count_most};
ghost use Rattle.commands.specs.Arguments.{of_most, of_kind, misfit_from, fit as fit_of, argument, signed_argument};

use crate::Operation;
use crate::signatures::{Kind, kinds};
use text::read_decimals::{read_number, read_signed};
use text::reading;
use text::reading::field;

// A text says a number up to any bound; one up to a power's may be as far below zero too.
#[tactic(auto, unfolding(crate::specs::Arguments::of_most))]
pub fn of_most(most: u64, s: &[u8]) -> bool
    ensures { result ≡ of_most most s.now }
{
    if most == Kind::Power.most() {
        read_signed(s).is_ok()
    } else {
        read_number(s, most).is_ok()
    }
}

// A text says a number of a kind.
#[tactic(auto, using(crate::proofs::arguments::Numbers::most_kind))]
pub fn of_kind(kind: Kind, s: &[u8]) -> bool
    ensures { result ≡ of_kind kind s.now }
{
    of_most(kind.most(), s)
}

// Arguments stand in a text, in the operation's order, parted by a byte.
#[derive(Clone, Copy)]
pub struct Arguments<'a> {
    pub text: &'a [u8],
    pub parting: u8,
}

impl Arguments<'_> {
    // The first that is not what it may be, or their count. They stand from field `first` on.
    pub fn misfit(self, o: Operation, first: usize) -> usize
        requires { first ≤ 1 }
        ensures { (result ≡ misfit_from self.entry.parting first self.entry.text.now 0 (kinds_of o)) × (result ≤ 10) }
    {
        let kinds = kinds(o);
        for (i, &kind) in kinds.iter().enumerate() {
            if !of_kind(kind, field(self.text, self.parting, i + first)) {
                return i;
            }
        }
        kinds.len()
    }

    // Argument i, 0 where there is none of the kind.
    #[tactic(auto, using(crate::proofs::arguments::Numbers::at_most), unfolding(crate::specs::Arguments::argument))]
    fn number(self, i: usize, kind: Kind) -> u64
        ensures { (result ≡ argument (most kind) self.entry.parting self.entry.text.now i) × (result ≤ most kind) }
    {
        read_number(field(self.text, self.parting, i), kind.most()).unwrap_or(0)
    }

    pub fn byte(self, i: usize) -> u8
        ensures { result ≡ argument byte_most self.entry.parting self.entry.text.now i }
    {
        self.number(i, Kind::Byte) as u8
    }

    pub fn word(self, i: usize) -> u16
        ensures { result ≡ argument word_most self.entry.parting self.entry.text.now i }
    {
        self.number(i, Kind::Word) as u16
    }

    pub fn hertz(self, i: usize) -> u32
        ensures { result ≡ argument hertz_most self.entry.parting self.entry.text.now i }
    {
        self.number(i, Kind::Hertz) as u32
    }

    pub fn count(self, i: usize) -> usize
        ensures { result ≡ argument count_most self.entry.parting self.entry.text.now i }
    {
        self.number(i, Kind::Count) as usize
    }

    #[tactic(auto, unfolding(crate::specs::Arguments::signed_argument))]
    pub fn power(self, i: usize) -> i32
        ensures { result ≡ signed_argument self.entry.parting self.entry.text.now i }
    {
        read_signed(field(self.text, self.parting, i)).unwrap_or(0)
    }
}

// The text has the operation's arguments, parted by spaces.
#[tactic(auto, unfolding(crate::specs::Arguments::fit))]
pub fn arguments_fit(o: Operation, s: &[u8]) -> bool
    ensures { result ≡ fit_of (kinds_of o) s.now }
{
    let n = kinds(o).len();
    if n == 0 {
        return reading::same(s, b"-");
    }
    let args = Arguments {
        text: s,
        parting: b' ',
    };
    reading::count(s, b' ') == n - 1 && args.misfit(o, 0) == n
}
