// The fields of a line, parted by a byte.
ghost use Rattle.std.specs.Prelude.{◌≡◌, suc, take, drop};
ghost use Rattle.text.specs.Bytes.{index_of};
ghost use Rattle.text.specs.Fields.{count_of, field_at};

use crate::bytes::find;

// How often a byte stands in a text; a line has one field more than separators.
pub fn count(s: &[u8], b: u8) -> usize
    ensures { result ≡ count_of b s.now }
{
    s.iter().filter(|&&x| x == b).count()
}

// What stands before the first separator, or all where there is none.
fn before(s: &[u8], sep: u8) -> &[u8]
    ensures { result.now ≡ take (index_of sep s.now) s.now }
{
    match find(s, sep) {
        Some(i) => &s[..i],
        None => s,
    }
}

// What stands behind the first separator, or nothing where there is none.
fn behind(s: &[u8], sep: u8) -> &[u8]
    ensures { result.now ≡ drop (suc (index_of sep s.now)) s.now }
{
    match find(s, sep) {
        Some(i) => &s[i + 1..],
        None => &s[s.len()..],
    }
}

// Field k, counted from 0; past the last field there is nothing.
pub fn field(s: &[u8], sep: u8, k: usize) -> &[u8]
    ensures { result.now ≡ field_at sep k s.now }
{
    let mut rest = s;
    for _ in 0..k {
        rest = behind(rest, sep);
    }
    before(rest, sep)
}
