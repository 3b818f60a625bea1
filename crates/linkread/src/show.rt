// An image shown: the link that it holds for a board, or each board that it could be of.
#![tactic(auto, using(text::proofs::printing::Appending::texts))]

ghost use Rattle.std.specs.Prelude.{◌≤◌, length};

use desk::files;
use desk::streams::{Stream, Streams};
use link::read_link;
use link_lines::board::{Oscillator, put_board};
use link_lines::put_link;
use link_rows::fields::put_board_fields;
use link_rows::put_link_fields;
use link_rows::ruled_out::{put_ruled_out, put_ruled_out_fields};
use params::board::Board;
use params::mod_params::{Link, RadioError};
use reader::last_examined;
use sheets::Variant;
use std::io::Write;
use text::printing::Text;

// The boards that are tried where none is named: variant, boost.
const BOARDS: [(Variant, bool); 4] = [
    (Variant::Sx1276, false),
    (Variant::Sx1276, true),
    (Variant::Sx1272, false),
    (Variant::Sx1272, true),
];

fn plain(variant: Variant, tx_boost: bool) -> Board {
    Board {
        variant,
        tcxo_used: false,
        tx_boost,
        rx_boost: false,
    }
}

pub fn write(streams: &mut Streams<impl Write, impl Write>, to: Stream, text: &[u8]) -> bool {
    files::write_to(streams, to, text, b"linkread: standard output")
}

// An image, under the name of what it was read from: as lines, or as rows of a table.
#[derive(Clone, Copy)]
pub struct Shown<'a> {
    pub name: &'a [u8],
    pub image: &'a [u8; 128],
    pub table: bool,
}

impl Shown<'_> {
    fn link(self, board: Board) -> Result<Link, RadioError> {
        let image = self.image;
        read_link(image, board)
    }

    fn print_link(
        self,
        streams: &mut Streams<impl Write, impl Write>,
        board: Board,
        oscillator: Oscillator,
        link: Link,
    ) {
        let mut place = [0u8; 1024];
        let mut out = Text {
            place: &mut place,
            end: 0,
        };
        put_board(board.variant, board.tx_boost, oscillator, &mut out);
        put_link(board.tx_boost, self.image[0x09], link, &mut out);
        let end = out.end;
        write(streams, Stream::Output, &place[..end]);
    }

    // A row is written behind the name.
    fn write_row(self, streams: &mut Streams<impl Write, impl Write>, row: &[u8]) {
        if write(streams, Stream::Output, self.name) {
            write(streams, Stream::Output, row);
        }
    }

    fn print_link_row(
        self,
        streams: &mut Streams<impl Write, impl Write>,
        board: Board,
        link: Link,
    ) {
        let mut place = [0u8; 1024];
        let mut out = Text {
            place: &mut place,
            end: 0,
        };
        put_board_fields(board, 0, &mut out);
        put_link_fields(link, &mut out);
        let end = out.end;
        self.write_row(streams, &place[..end]);
    }

    fn show_link(
        self,
        streams: &mut Streams<impl Write, impl Write>,
        board: Board,
        oscillator: Oscillator,
        link: Link,
    ) {
        if self.table {
            self.print_link_row(streams, board, link);
        } else {
            self.print_link(streams, board, oscillator, link);
        }
    }

    // The register that rules a link out, and what it holds.
    fn show_ruled_out(
        self,
        streams: &mut Streams<impl Write, impl Write>,
        board: Board,
        oscillator: Oscillator,
    ) {
        let register = last_examined(self.image, board);
        let value = self.image[register as usize];
        let mut place = [0u8; 512];
        let mut out = Text {
            place: &mut place,
            end: 0,
        };
        if self.table {
            put_board_fields(board, 27, &mut out);
            put_ruled_out_fields(register, value, &mut out);
            let end = out.end;
            self.write_row(streams, &place[..end]);
        } else {
            put_board(board.variant, board.tx_boost, oscillator, &mut out);
            put_ruled_out(register, value, &mut out);
            let end = out.end;
            write(streams, Stream::Output, &place[..end]);
        }
    }

    pub fn show_board(self, streams: &mut Streams<impl Write, impl Write>, board: Board) {
        let oscillator = if board.tcxo_used {
            Oscillator::Tcxo
        } else {
            Oscillator::Crystal
        };
        match self.link(board) {
            Ok(link) => self.show_link(streams, board, oscillator, link),
            Err(_) => self.show_ruled_out(streams, board, oscillator),
        }
    }

    // Shows an image that could be of this board, and answers whether it could. The reader looks at the oscillator
    // last, so that with a TCXO the link is the same.
    fn show_possible(self, streams: &mut Streams<impl Write, impl Write>, board: Board) -> bool {
        let Ok(link) = self.link(board) else {
            return false;
        };
        let with = Board {
            tcxo_used: true,
            ..board
        };
        if self.link(with).is_err() {
            self.show_link(streams, board, Oscillator::Crystal, link);
            return true;
        }
        self.show_link(streams, board, Oscillator::Either, link);
        if self.table {
            self.show_link(streams, with, Oscillator::Either, link);
        }
        true
    }

    // Every board is tried; where none is possible, each is shown with what rules it out.
    pub fn show_every(self, streams: &mut Streams<impl Write, impl Write>) {
        let mut possible = false;
        for (variant, tx_boost) in BOARDS {
            possible |= self.show_possible(streams, plain(variant, tx_boost));
        }
        if !possible {
            self.show_none(streams);
        }
    }

    fn show_none(self, streams: &mut Streams<impl Write, impl Write>) {
        for (variant, tx_boost) in BOARDS {
            self.show_ruled_out(streams, plain(variant, tx_boost), Oscillator::Either);
        }
    }
}
