// What is wrong with a text of Intel HEX, in words.
#![tactic(auto, using(text::proofs::printing::Appending::texts))]

ghost use Rattle.std.specs.Prelude.{◌≡◌, ◌++◌, ◌+◌, ◌≤◌, length};
ghost use Rattle.text.specs.Text.{Put, Space};
ghost use Rattle.intel_hex.specs.FaultWords.{byte_text, address_text, words_of};

use params::hex_faults::HexFault;
use text::hex::Case;
use text::printing::Text;

// A byte, between words.
fn put_byte(before: &[u8], b: u8, behind: &[u8], out: &mut Text<'_>)
    requires { Space (length before.now + (length behind.now + 2)) out.old }
    ensures { Put (before.now ++ (byte_text b ++ behind.now)) out.old out.new }
{
    out.put(before);
    out.put_hex(&[b], Case::Upper);
    out.put(behind);
}

// An address, between words. Four digits are enough: of a record's bytes the first that is wrong is told, at the
// record's own address or at most 0x0080.
#[tactic(auto, using(text::proofs::printing::Appending::texts), unfolding(crate::specs::FaultWords::address_text))]
fn put_address(before: &[u8], a: usize, behind: &[u8], out: &mut Text<'_>)
    requires { Space (length before.now + (length behind.now + 6)) out.old }
    ensures appended { Put (before.now ++ (address_text a ++ behind.now)) out.old out.new }
    ensures value { out.new.end ≡ out.old.end + (length before.now + (length behind.now + 6)) }
{
    out.put(before);
    out.put(b"0x");
    out.put_hex(&[(a / 256 % 256) as u8, (a % 256) as u8], Case::Upper);
    out.put(behind);
}

pub fn put_words(f: HexFault, out: &mut Text<'_>)
    requires { Space 450 out.old }
    ensures appended { Put (words_of f) out.old out.new }
    ensures upper_bound { out.new.end ≤ out.old.end + 450 }
{
    match f {
        HexFault::Open => out.put(b"the line does not end with LF"),
        HexFault::Form => out.put(b"a record is a colon and pairs of hex digits"),
        HexFault::Count => out.put(b"the record's byte count is not that of its bytes"),
        HexFault::Kind(k) => put_byte(
            b"the record's type is ",
            k,
            b", and only 00 (data) and 01 (end) are taken",
            out,
        ),
        HexFault::EndHolds => out.put(b"an end record has no bytes, and address 0000"),
        HexFault::After => out.put(b"text follows the end record"),
        HexFault::Sum(right) => put_byte(b"the sum is wrong; ", right, b" would be right", out),
        HexFault::Outside(a) => put_address(
            b"a byte stands at ",
            a,
            b", and an image ends at 0x007F",
            out,
        ),
        HexFault::Twice(a) => put_address(
            b"the byte at ",
            a,
            b" was set by an earlier record",
            out,
        ),
        HexFault::NoEnd => out.put(b"there is no end record"),
        HexFault::Unset(a) => put_address(b"address ", a, b" is not set", out),
    }
}
