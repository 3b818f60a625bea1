// The reader's guess of a link, improved by one register after the other.
ghost use Rattle.std.specs.Prelude.{◌≡◌, ◌<◌, ◌^◌};
ghost use Rattle.page.specs.Page.{improved, find};
ghost use Rattle.page.specs.Lora.{blank, tuned, powered, announced, shaped, frf_msb_place, frf_mid_place, frf_lsb_place, pa_config_place, pa_dac_place, config_1_place, config_2_place, invert_iq_place, sync_word_place, places_of};

use crate::power_shown::{power_shown, power_shown_with};
use modem::inversion::INVERT_IQ_RX;
use params::board::Board;
use params::mod_params::Link;
use params::units::{Hertz, Steps};
use setup::init::LORA_MAC_PUBLIC_SYNCWORD;
use sheets::Variant;
use tx_power::sx1272;

// The first guess, before any register is looked at.
pub fn blank() -> Link
    ensures { result ≡ blank }
{
    Link {
        public_network: 0,
        spreading_factor: 7,
        bandwidth: 7,
        coding_rate: 1,
        frequency: Hertz(0),
        preamble_length: 0,
        implicit_header: 0,
        crc_on: 0,
        iq_inverted: 0,
        power: 0,
    }
}

// At 125 kHz every frequency is accepted.
fn tuned(guess: Link, count: Steps) -> Link
    requires { count.0 < 2 ^ 24 }
    ensures { result ≡ tuned count.0 guess }
{
    Link {
        bandwidth: 7,
        frequency: count.lowest(),
        ..guess
    }
}

fn powered(guess: Link, power: i32) -> Link
    ensures { result ≡ powered power guess }
{
    Link { power, ..guess }
}

fn announced(guess: Link, preamble_length: u16) -> Link
    ensures { result ≡ announced preamble_length guess }
{
    Link {
        preamble_length,
        ..guess
    }
}

fn shaped(guess: Link, sf: u8, bw: u8, cr: u8, implicit_header: u8, crc_on: u8) -> Link
    ensures { result ≡ shaped sf bw cr implicit_header crc_on guess }
{
    Link {
        spreading_factor: sf,
        bandwidth: bw,
        coding_rate: cr,
        implicit_header,
        crc_on,
        ..guess
    }
}

// RegFrf, a byte after the other: what the guess holds of the bytes before.
fn frf_msb(guess: Link, value: u8) -> Link
    ensures { result ≡ frf_msb_place.learn value guess }
{
    tuned(guess, Steps::from_frf(value, 0, 0))
}

fn frf_mid(guess: Link, value: u8) -> Link
    ensures { result ≡ frf_mid_place.learn value guess }
{
    let count = guess.frequency.steps();
    tuned(guess, Steps::from_frf(count.frf_msb(), value, 0))
}

fn frf_lsb(guess: Link, value: u8) -> Link
    ensures { result ≡ frf_lsb_place.learn value guess }
{
    let count = guess.frequency.steps();
    tuned(
        guess,
        Steps::from_frf(count.frf_msb(), count.frf_mid(), value),
    )
}

fn pa_config(guess: Link, board: Board, value: u8) -> Link
    ensures { result ≡ (pa_config_place board.variant board.tx_boost).learn value guess }
{
    powered(guess, power_shown(board.variant, board.tx_boost, value))
}

fn pa_dac(guess: Link, tx_boost: bool, value: u8) -> Link
    ensures { result ≡ (pa_dac_place Variant.Sx1272 tx_boost).learn value guess }
{
    let config = sx1272::pa_config(guess.power, tx_boost);
    powered(guess, power_shown_with(tx_boost, config, value))
}

fn config_1_sx1272(guess: Link, value: u8) -> Link
    ensures { result ≡ (config_1_place Variant.Sx1272).learn value guess }
{
    let sf = 7 + value % 2 * 5;
    let bw = value / 64 + 7;
    shaped(guess, sf, bw, value / 8 % 8, value / 4 % 2, value / 2 % 2)
}

fn config_1_sx1276(guess: Link, value: u8) -> Link
    ensures { result ≡ (config_1_place Variant.Sx1276).learn value guess }
{
    shaped(guess, 7, value / 16, value / 2 % 8, value % 2, guess.crc_on)
}

fn config_2_sx1272(guess: Link, value: u8) -> Link
    ensures { result ≡ improved (config_2_place Variant.Sx1272) value guess }
{
    Link {
        spreading_factor: value / 16,
        ..guess
    }
}

fn config_2_sx1276(guess: Link, value: u8) -> Link
    ensures { result ≡ improved (config_2_place Variant.Sx1276) value guess }
{
    Link {
        spreading_factor: value / 16,
        crc_on: value / 4 % 2,
        ..guess
    }
}

#[tactic(auto, unfolding(page::specs::Lora::is))]
fn invert_iq(guess: Link, value: u8) -> Link
    ensures { result ≡ invert_iq_place.learn value guess }
{
    Link {
        iq_inverted: (value == INVERT_IQ_RX) as u8,
        ..guess
    }
}

#[tactic(auto, unfolding(page::specs::Lora::is))]
fn sync_word(guess: Link, value: u8) -> Link
    ensures { result ≡ sync_word_place.learn value guess }
{
    Link {
        public_network: (value == LORA_MAC_PUBLIC_SYNCWORD) as u8,
        ..guess
    }
}

fn config_1(guess: Link, variant: Variant, value: u8) -> Link
    ensures { result ≡ (config_1_place variant).learn value guess }
{
    match variant {
        Variant::Sx1272 => config_1_sx1272(guess, value),
        Variant::Sx1276 => config_1_sx1276(guess, value),
    }
}

fn config_2(guess: Link, variant: Variant, value: u8) -> Link
    ensures { result ≡ improved (config_2_place variant) value guess }
{
    match variant {
        Variant::Sx1272 => config_2_sx1272(guess, value),
        Variant::Sx1276 => config_2_sx1276(guess, value),
    }
}

// RegPaDac of the SX1272; the SX1276 has another register there.
fn pa_dac_5a(guess: Link, board: Board, value: u8) -> Link
    ensures { result ≡ improved (find 0x5a (places_of board)) value guess }
{
    match board.variant {
        Variant::Sx1272 => pa_dac(guess, board.tx_boost, value),
        Variant::Sx1276 => guess,
    }
}

// What a register that holds this value tells of the link; those that are not named tell nothing new.
pub fn learn(guess: Link, board: Board, register: u8, value: u8) -> Link
    ensures { result ≡ improved (find register (places_of board)) value guess }
{
    match register {
        0x06 => frf_msb(guess, value),
        0x07 => frf_mid(guess, value),
        0x08 => frf_lsb(guess, value),
        0x09 => pa_config(guess, board, value),
        0x1d => config_1(guess, board.variant, value),
        0x1e => config_2(guess, board.variant, value),
        0x20 => announced(guess, (value as u16) * 256),
        0x21 => announced(guess, guess.preamble_length / 256 * 256 + value as u16),
        0x33 => invert_iq(guess, value),
        0x39 => sync_word(guess, value),
        0x5a => pa_dac_5a(guess, board, value),
        _ => guess,
    }
}
