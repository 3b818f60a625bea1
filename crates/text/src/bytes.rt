// Bytes of a text: where one stands.
ghost use Rattle.text.specs.Bytes.{Found};

// Where the byte b stands first in s.
pub fn find(s: &[u8], b: u8) -> Option<usize>
    ensures { Found b s.now result }
{
    s.iter().position(|&x| x == b)
}
