// What is wrong with a line that is no call, in words.
#![tactic(auto, using(text::proofs::printing::Appending::texts))]

ghost use Rattle.std.specs.Prelude.{◌≡◌, ◌++◌, ◌+◌, ◌≤◌, length};
ghost use Rattle.text.specs.Words.{ascii};
ghost use Rattle.text.specs.Text.{Space, Put};
ghost use Rattle.text.specs.Numbers.{decimal};
ghost use Rattle.commands.specs.Operations.{arguments};
ghost use Rattle.requests.specs.Faults.{wanted, words};

use crate::Fault;
use commands::Operation;
use text::printing::Text;

// The names of an operation's arguments.
fn arguments(o: Operation) -> &'static [u8]
    ensures value { result.now ≡ arguments o }
    ensures short { length result.now ≤ 60 }
{
    match o {
        Operation::InitLora => b"public",
        Operation::CreateModulationParams => b"sf bw cr hz",
        Operation::CreatePacketParams => b"preamble implicit payload_length crc iq sf",
        Operation::SetTxRxBufferBaseAddress => b"tx rx",
        Operation::SetTxPowerAndRampTime => b"power is_tx_prep",
        Operation::SetModulationParams => b"sf bw cr optimize",
        Operation::SetPacketParams => b"preamble implicit payload_length crc iq",
        Operation::SetChannel => b"hz",
        Operation::DoRx => b"rxmode n",
        Operation::SetIrqParams => b"mode rxmode",
        Operation::ProcessIrqEvent => b"mode rxmode clear",
        Operation::Program => b"public sf bw cr hz preamble implicit crc iq power",
        _ => b"-",
    }
}

fn put_wanted(o: Operation, out: &mut Text<'_>)
    requires { Space 300 out.old }
    ensures appended { Put (wanted o) out.old out.new }
    ensures upper_bound { out.new.end ≤ out.old.end + 300 }
{
    out.put(b"field 6: expected arguments: ");
    out.put(arguments(o));
}

// A field by its number, and what it should be.
fn put_numbered(number: u8, text: &[u8], out: &mut Text<'_>)
    requires { Space (26 + length text.now) out.old }
    ensures appended { Put (ascii "field " ++ (decimal number ++ text.now)) out.old out.new }
    ensures upper_bound { out.new.end ≤ out.old.end + 26 + length text.now }
{
    out.put(b"field ");
    out.put_decimal(number as u64);
    out.put(text);
}

fn put_words(f: Fault, out: &mut Text<'_>)
    requires { Space 300 out.old }
    ensures appended { Put (words f) out.old out.new }
    ensures upper_bound { out.new.end ≤ out.old.end + 300 }
{
    match f {
        Fault::LongLine => out.put(b"line over 16384 bytes"),
        Fault::FieldCount => out.put(b"expected 11 fields"),
        Fault::Variant => out.put(b"field 1: expected 1272 or 1276"),
        Fault::Flag(n) => put_numbered(n, b": expected 0 or 1", out),
        Fault::UnknownOperation => out.put(b"field 5: unknown operation"),
        Fault::Arguments(o) => put_wanted(o, out),
        Fault::Bytes(n) => {
            put_numbered(n, b": expected lower-case hex of up to 1024 bytes", out)
        }
        Fault::Buffer => out.put(b"field 9: expected lower-case hex of up to 4096 bytes"),
        Fault::Used => out.put(b"field 11: expected a decimal number"),
    }
}

// The whole line that a line which is no call gets.
pub fn put_fault(f: Fault, out: &mut Text<'_>)
    requires { Space 303 out.old }
    ensures { Put (ascii "?\t" ++ (words f ++ ascii "\n")) out.old out.new }
{
    out.put(b"?\t");
    put_words(f, out);
    out.put(b"\n");
}
