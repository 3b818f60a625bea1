// Lines and columns.
ghost use Rattle.std.specs.Prelude.{◌≡◌};
ghost use Rattle.dump.specs.Spot.{line_from, column_from, last_line};

#[derive(Clone, Copy, PartialEq, Eq)]
pub struct Spot {
    pub line: usize,
    pub column: usize,
}

// The line and column of what stands behind a text.
pub fn spot_behind(s: &[u8]) -> Spot
    ensures { (result.line ≡ line_from 1 s.now) × (result.column ≡ column_from 1 s.now) }
{
    let mut line = 1;
    let mut column = 1;
    for &c in s {
        if c == b'\n' {
            line += 1;
            column = 1;
        } else {
            column += 1;
        }
    }
    Spot { line, column }
}

// The line of a text's last character.
pub(crate) fn last_line(s: &[u8]) -> usize
    ensures { result ≡ last_line s.now }
{
    match s {
        [before @ .., _] => spot_behind(before).line,
        [] => 1,
    }
}
