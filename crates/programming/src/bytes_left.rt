// The byte that an accepted link leaves in a register, of the one that is there.
ghost use Rattle.std.specs.Prelude.{◌≡◌, ◌≤◌, ◌<◌};
ghost use Rattle.sheets.specs.Registers.{reg_tcxo};
ghost use Rattle.sheets.specs.Modem.{bandwidth_code};
ghost use Rattle.sheets.specs.Power.{pa_config};
ghost use Rattle.page.specs.Page.{written, find, Outside};
ghost use Rattle.page.specs.Lora.{config_1_place, config_2_place, config_3_place, flag_of, places_of};
ghost use Rattle.programming.specs.Registers.{alike, most_code};

use crate::acceptance::AcceptedLink;
use modem::detection::{DETECTION_RESERVED, Detection};
use modem::inversion::Inversion;
use modem::low_data_rate::low_data_rate_optimize;
use params::board::Board;
use setup::init::{TCXO_FOR_OSCILLATOR, syncword};
use setup::ramps::ramp_value;
use sheets::Variant;
use tx_power::levels::pa_dac;
use tx_power::{sx1272, sx1276};
use variants::ALL_BUT_SPREADING_FACTOR;
use variants::sx1276::{ALL_BUT_LDRO_AND_AGC_AUTO, ALL_BUT_RX_PAYLOAD_CRC_ON};

impl AcceptedLink {
    fn pa_config(self) -> u8
        ensures { result ≡ pa_config self.board.variant self.board.tx_boost self.link.power }
    {
        match self.board.variant {
            Variant::Sx1272 => sx1272::pa_config(self.link.power, self.board.tx_boost),
            Variant::Sx1276 => sx1276::pa_config(self.link.power, self.board.tx_boost),
        }
    }

    #[tactic(auto, using(sheets::proofs::Modem::optimize_le))]
    pub(crate) fn low_data_rate_optimize(self) -> u8
        ensures value { result ≡ flag_of self.link }
        ensures upper_bound { result ≤ 1 }
    {
        low_data_rate_optimize(self.link.spreading_factor, self.link.bandwidth)
    }

    #[tactic(auto, using(crate::proofs::bytes_left::Codes::code_le))]
    fn bandwidth_code(self) -> u8
        ensures value { result ≡ bandwidth_code self.board.variant self.link.bandwidth }
        ensures upper_bound { result ≤ most_code self.board.variant }
    {
        self.board.variant.bandwidth_code(self.link.bandwidth)
    }

    fn config_1(self) -> u8
        ensures { result ≡ (config_1_place self.board.variant).bits self.link }
    {
        let link = self.link;
        let code = self.bandwidth_code();
        match self.board.variant {
            Variant::Sx1272 => {
                let flag = self.low_data_rate_optimize();
                code * 64 + link.coding_rate * 8 + link.implicit_header * 4 + link.crc_on * 2 + flag
            }
            Variant::Sx1276 => code * 16 + link.coding_rate * 2 + link.implicit_header,
        }
    }

    fn config_2(self, old: u8) -> u8
        ensures { result ≡ written (config_2_place self.board.variant) self.link old }
    {
        let link = self.link;
        match self.board.variant {
            Variant::Sx1272 => (ALL_BUT_SPREADING_FACTOR & old) | (link.spreading_factor * 16),
            Variant::Sx1276 => {
                let kept = ALL_BUT_SPREADING_FACTOR & ALL_BUT_RX_PAYLOAD_CRC_ON & old;
                kept | (link.spreading_factor * 16 + link.crc_on * 4)
            }
        }
    }

    // The SX1276 alone.
    fn config_3(self, old: u8) -> u8
        ensures { result ≡ written config_3_place self.link old }
    {
        (ALL_BUT_LDRO_AND_AGC_AUTO & old) | (self.low_data_rate_optimize() * 8)
    }

    // The oscillator's register is the variant's own.
    #[tactic(auto, using(crate::proofs::bytes_left::Own::crystal))]
    fn tcxo(self, old: u8) -> u8
        ensures { result ≡ written (find (reg_tcxo self.board.variant) (places_of self.board)) self.link old }
    {
        if self.board.tcxo_used {
            TCXO_FOR_OSCILLATOR
        } else {
            old
        }
    }

    // Of a register that one variant alone has, or that none writes.
    fn own_byte_left(self, register: u8, old: u8) -> u8
        requires { Outside alike register }
        ensures { result ≡ written (find register (places_of self.board)) self.link old }
    {
        let Board {
            variant,
            tx_boost,
            ..
        } = self.board;
        let power = self.link.power;
        match (variant, register) {
            (Variant::Sx1276, 0x0b) => sx1276::ocp(power, tx_boost),
            (Variant::Sx1276, 0x26) => self.config_3(old),
            (Variant::Sx1272, 0x58) | (Variant::Sx1276, 0x4b) => self.tcxo(old),
            (Variant::Sx1272, 0x5a) | (Variant::Sx1276, 0x4d) => pa_dac(variant, power, tx_boost),
            _ => old,
        }
    }

    pub fn byte_left(self, register: u8, old: u8) -> u8
        ensures { result ≡ written (find register (places_of self.board)) self.link old }
    {
        let link = self.link;
        let steps = link.frequency.steps();
        match register {
            0x06 => steps.frf_msb(),
            0x07 => steps.frf_mid(),
            0x08 => steps.frf_lsb(),
            0x09 => self.pa_config(),
            0x0a => ramp_value(self.board.variant, 0),
            0x0e | 0x0f => 0,
            0x1d => self.config_1(),
            0x1e => self.config_2(old),
            0x20 => (link.preamble_length / 256) as u8,
            0x21 => (link.preamble_length % 256) as u8,
            0x31 => (DETECTION_RESERVED & old) | Detection::of(link.spreading_factor).optimize,
            0x33 => Inversion::of(link.iq_inverted).invert_iq,
            0x37 => Detection::of(link.spreading_factor).threshold,
            0x39 => syncword(link.public_network),
            0x3b => Inversion::of(link.iq_inverted).invert_iq2,
            _ => self.own_byte_left(register, old),
        }
    }
}
