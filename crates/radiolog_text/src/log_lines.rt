// The log for people: a line for each record, its kind as a letter, its address and data as upper-case hexadecimal digits, parted by tabs.
ghost use Rattle.std.specs.Prelude.{◌≡◌, ◌+◌, ◌*◌, ◌≤◌, length};
ghost use Rattle.text.specs.Text.{Space, Put};
ghost use Rattle.radiolog_text.specs.LogLines.{letter_of, record_text, records_text};

use text::hex::Case;
use text::printing::Text;

const LETTERS: [u8; 7] = [b'R', b'W', b'F', b'G', b'S', b'P', b'Z'];

fn letter(kind: u8) -> u8
    ensures { result ≡ letter_of kind }
{
    LETTERS.get(kind as usize).copied().unwrap_or(b'?')
}

#[tactic(auto, using(text::proofs::printing::Appending::texts))]
fn put_record(kind: u8, address: u8, data: u8, out: &mut Text<'_>)
    requires { Space 8 out.old }
    ensures appended { Put (record_text kind address «data») out.old out.new }
    ensures value { out.new.end ≡ out.old.end + 8 }
{
    out.put(&[letter(kind), b'\t']);
    out.put_hex(&[address], Case::Upper);
    out.put(b"\t");
    out.put_hex(&[data], Case::Upper);
    out.put(b"\n");
}

// Each whole record of a log.
#[tactic(auto, using(text::proofs::printing::Appending::texts))]
pub fn put_records(log: &[u8], out: &mut Text<'_>)
    requires { Space (3 * length log.now) out.old }
    ensures appended { Put (records_text log.now) out.old out.new }
    ensures upper_bound { out.new.end ≤ out.old.end + 3 * length log.now }
{
    let (records, _) = log.as_chunks::<3>();
    for &[kind, address, data] in records {
        put_record(kind, address, data, out);
    }
}
