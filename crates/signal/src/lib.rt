// SNR and RSSI of a packet: the slope of the RSSI's line, its offset, and both together.
#![tactic(auto)]

ghost use Rattle.std.specs.Prelude.{◌≡◌, pos, negsuc, ◌≤ℤ◌};
ghost use Rattle.sheets.specs.Signal.{snr, rssi};

use crate::scaling::scaled;
use params::mod_params::PacketStatus;

pub mod offsets;
pub mod scaling;

// RegPktSnrValue counts quarter dB; the quotient goes toward zero, so that 0xfd to 0xff are 0.
pub fn snr(raw: u8) -> i16
    ensures { result ≡ snr raw }
{
    let wide = raw as i16;
    if raw < 128 {
        wide / 4
    } else {
        (wide - 256) / 4
    }
}

// Below the noise the radio's byte measures the noise, and the ratio leads from it to the packet.
fn packet_rssi(offset: i16, raw: u8, p: u8) -> i16
    requires { (negsuc 199 ≤ℤ offset) × (offset ≤ℤ pos 0) }
    ensures { result ≡ rssi offset raw p }
{
    let s = snr(raw);
    if s >= 0 {
        offset + scaled(p)
    } else {
        offset + p as i16 + s
    }
}

// What `get_rx_packet_status` makes of the bytes that it read.
pub fn packet_status(offset: i16, snr_raw: u8, rssi_raw: u8) -> PacketStatus
    requires { (negsuc 199 ≤ℤ offset) × (offset ≤ℤ pos 0) }
    ensures { (result.rssi ≡ rssi offset snr_raw rssi_raw) × (result.snr ≡ snr snr_raw) }
{
    let rssi = packet_rssi(offset, snr_raw, rssi_raw);
    let snr = snr(snr_raw);
    PacketStatus { rssi, snr }
}
