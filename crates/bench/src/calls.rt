// The calls that the figures speak of, each on an image of zeros.
use bus::Radio;
use bus::log::Log;
use params::board::Board;
use params::mod_params::{Link, PacketStatus, RadioError};
use params::units::{Hertz, Steps};
use sheets::Variant;

// The longest call makes 30 records.
const LOG_SIZE: usize = 96;

fn board(variant: Variant, tx_boost: bool) -> Board {
    Board {
        variant,
        tcxo_used: false,
        tx_boost,
        rx_boost: false,
    }
}

const PLAIN: Board = Board {
    variant: Variant::Sx1276,
    tcxo_used: false,
    tx_boost: false,
    rx_boost: false,
};

// An ordinary link.
fn link_at(bandwidth: u8, hz: u32) -> Link {
    Link {
        public_network: 1,
        spreading_factor: 9,
        bandwidth,
        coding_rate: 1,
        frequency: Hertz(hz),
        preamble_length: 8,
        implicit_header: 0,
        crc_on: 1,
        iq_inverted: 0,
        power: 14,
    }
}

// The image that a call leaves of one of zeros. Whether it is refused shows in its registers.
fn image_after<F: FnOnce(&mut Radio<'_>) -> Result<(), RadioError>>(call: F) -> [u8; 128]
    requires { F.IsAlwaysCallable call }
{
    let mut image = [0u8; 128];
    let mut log = [0u8; LOG_SIZE];
    let mut radio = Radio {
        image: &mut image,
        log: &mut log,
        used: 0,
    };
    let _ = call(&mut radio);
    image
}

// RegFrf after `set_channel`.
pub fn frf(hz: u32) -> [u8; 3] {
    let image = image_after(|radio| sx127x::set_channel(radio, hz));
    [image[0x06], image[0x07], image[0x08]]
}

// The truncated read-back.
pub fn read_back(hz: u32) -> u64 {
    let [msb, mid, lsb] = frf(hz);
    u64::from(Steps::from_frf(msb, mid, lsb).read_back().0)
}

// The frequency that the reader gets back, 0 where it finds no link.
pub fn reader(hz: u32) -> u64 {
    let image = image_after(|radio| link::program(radio, PLAIN, link_at(7, hz)));
    match link::read_link(&image, PLAIN) {
        Ok(l) => u64::from(l.frequency.0),
        Err(_) => 0,
    }
}

// The number of whole programming's refusal, 0 where there is none.
pub fn refusal(bandwidth: u8, hz: u32) -> u64 {
    let mut image = [0u8; 128];
    let mut log = [0u8; LOG_SIZE];
    let mut radio = Radio {
        image: &mut image,
        log: &mut log,
        used: 0,
    };
    match link::program(&mut radio, PLAIN, link_at(bandwidth, hz)) {
        Ok(()) => 0,
        Err(e) => u64::from(e.number()),
    }
}

// A packet's signal, by its raw RSSI and SNR.
pub fn measured(variant: Variant, hz: u32, rssi: u8, snr: u8) -> PacketStatus {
    let mut image = image_after(|radio| sx127x::set_channel(radio, hz));
    image[0x19] = snr;
    image[0x1a] = rssi;
    let mut bytes = [0u8; LOG_SIZE];
    let mut log = Log {
        bytes: &mut bytes,
        used: 0,
    };
    match sx127x::get_rx_packet_status(&image, &mut log, variant) {
        Ok(status) => status,
        Err(_) => PacketStatus { rssi: 0, snr: 0 },
    }
}

// The symbols that `do_rx` waits for a single packet, as registers 1e and 1f hold them.
pub fn window(n: u16) -> u64 {
    let image = image_after(|radio| sx127x::do_rx(radio, false, 0, n));
    u64::from(image[0x1e] % 4) * 256 + u64::from(image[0x1f])
}

// The image after `set_tx_power_and_ramp_time`.
pub fn powered(variant: Variant, tx_boost: bool, power: i32) -> [u8; 128] {
    image_after(|radio| sx127x::set_tx_power_and_ramp_time(
        radio,
        board(variant, tx_boost),
        power,
        0,
    ))
}
