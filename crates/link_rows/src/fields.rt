// The fields of a row, a tab and a number each, and those of a board.
ghost use Rattle.std.specs.Prelude.{◌≡◌, ◌+◌, ◌*◌, ◌≤◌, length};
ghost use Rattle.text.specs.Text.{Space, Put};
ghost use Rattle.link_rows.specs.Fields.{field, fields, chip as chip_of, board_fields};

use link_lines::numerals::put_counted;
use params::board::Board;
use sheets::Variant;
use text::printing::Text;

pub fn put_field(n: u64, out: &mut Text<'_>)
    requires { Space 60 out.old }
    ensures appended { Put (field n) out.old out.new }
    ensures upper_bound { out.new.end ≤ out.old.end + 60 }
{
    put_counted(b"\t", n, b"", out);
}

// One field behind another.
#[tactic(auto, using(text::proofs::printing::Appending::texts))]
pub fn put_fields(numbers: &[u64], out: &mut Text<'_>)
    requires { Space (60 * length numbers.now) out.old }
    ensures appended { Put (fields numbers.now) out.old out.new }
    ensures upper_bound { out.new.end ≤ out.old.end + 60 * length numbers.now }
{
    for &n in numbers {
        put_field(n, out);
    }
}

fn chip(variant: Variant) -> u64
    ensures { result ≡ chip_of variant }
{
    match variant {
        Variant::Sx1272 => 1272,
        Variant::Sx1276 => 1276,
    }
}

// The board, and the number that the reader answers: 0 for a link, or 27.
pub fn put_board_fields(board: Board, answer: u8, out: &mut Text<'_>)
    requires { Space 240 out.old }
    ensures appended { Put (board_fields board answer) out.old out.new }
    ensures upper_bound { out.new.end ≤ out.old.end + 240 }
{
    let numbers = [
        chip(board.variant),
        u64::from(board.tcxo_used),
        u64::from(board.tx_boost),
        u64::from(answer),
    ];
    put_fields(&numbers, out);
}
