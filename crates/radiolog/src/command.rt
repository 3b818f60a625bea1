// A command: the call of that name, done over the image and the FIFO.
#![tactic(auto, using(text::proofs::hex::Pairs::roomy))]

ghost use Rattle.std.specs.Prelude.{◌≤◌, length};
ghost use Rattle.text.specs.Text.{Space};
ghost use Rattle.radiolog.specs.Grown.{Grown};

use crate::answers::{logged, put_done, put_received, put_told, status};
use bus::Radio;
use commands::Operation;
use commands::arguments::Arguments;
use params::board::Board;
use params::mod_params::RadioError;
use radiolog_text::command_words::command_named;
use text::bytes::find;
use text::hex;
use text::hex::Case;
use text::printing::Text;
use text::reading::field;

const TAB: u8 = b'\t';

// The bytes that digits say, in either case; a dash says none.
fn bytes_asked(text: &[u8], place: &mut [u8]) -> usize
    ensures { result ≤ length place.old }
{
    match hex::read_hex(text, Case::Lower, place) {
        Ok(n) => n,
        Err(_) => hex::read_hex(text, Case::Upper, place).unwrap_or(0),
    }
}

fn send(args: Arguments<'_>, fifo: &mut [u8], radio: &mut Radio<'_>) -> Result<(), RadioError> {
    let mut payload = [0u8; 1024];
    let n = bytes_asked(field(args.text, TAB, 0), &mut payload);
    sx127x::set_payload(radio, fifo, &payload[..n])
}

// What stands behind the first tab: the arguments of a line that was judged.
fn arguments(line: &[u8]) -> Arguments<'_> {
    let text = match find(line, TAB) {
        Some(tab) => &line[tab + 1..],
        None => b"",
    };
    Arguments { text, parting: TAB }
}

// A radio that is not there: its board, its registers as the host knows them, and its FIFO.
#[derive(Clone, Copy)]
pub struct Device {
    pub board: Board,
    pub image: [u8; 128],
    pub fifo: [u8; 256],
}

impl Device {
    fn receive(&mut self, out: &mut Text<'_>)
        requires { Space 1100 out.old }
        ensures { Grown 1100 out.old out.new }
    {
        let mut buffer = [0u8; 255];
        let fifo = &self.fifo;
        let answer = logged(
            &mut self.image,
            |radio| sx127x::get_rx_payload(radio, fifo, &mut buffer),
            out,
        );
        put_received(answer, &buffer, out);
    }

    fn do_operation(&mut self, o: Operation, args: Arguments<'_>, out: &mut Text<'_>)
        requires { Space 1100 out.old }
        ensures { Grown 1100 out.old out.new }
    {
        let board = self.board;
        let image = &mut self.image;
        match o {
            Operation::CreateModulationParams => {
                put_told(dispatch::create_modulation(args, board.variant), out)
            }
            Operation::CreatePacketParams => put_told(dispatch::create_packet(args), out),
            Operation::ReadLink => put_told(link::read_link(image, board), out),
            Operation::GetRxPacketStatus => {
                let answer = status(image, board.variant, out);
                put_told(answer, out);
            }
            Operation::ProcessIrqEvent => {
                let answer = logged(image, |radio| dispatch::event(args, radio), out);
                put_told(answer, out);
            }
            Operation::SetPayload => {
                let fifo = &mut self.fifo;
                let answer = logged(image, |radio| send(args, fifo, radio), out);
                put_done(answer, out);
            }
            Operation::GetRxPayload => self.receive(out),
            _ => {
                let answer = logged(image, |radio| dispatch::done(o, args, board, radio), out);
                put_done(answer, out);
            }
        }
    }

    // Does what a line that was judged asks, and puts what it appended and answered.
    pub fn act(&mut self, line: &[u8], out: &mut Text<'_>)
        requires { Space 1100 out.old }
        ensures { Grown 1100 out.old out.new }
    {
        if let Some(o) = command_named(field(line, TAB, 0)) {
            self.do_operation(o, arguments(line), out);
        }
    }
}
