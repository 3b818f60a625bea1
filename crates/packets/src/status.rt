// A received packet's signal: `get_rx_packet_status`.
ghost use Rattle.std.specs.Prelude.{◌≡◌, [], ◌∷◌, ◌^◌, ◌≤◌, ◌<◌, length};
ghost use Rattle.sheets.specs.declared.Variant.TheVariants.{Sx1276};
ghost use Rattle.sheets.specs.Signal.{offset};
ghost use Rattle.params.specs.Answers.{tells_status};
ghost use Rattle.params.specs.Errors.{told};
ghost use Rattle.bus.specs.Steps.{end_after};
ghost use Rattle.bus.specs.Call.{Meets};
ghost use Rattle.bus.specs.Lent.{LogRoom, Logged, SameLog};
ghost use Rattle.operations.specs.Packets.{frf_read, measuring, tuned, measured, get_status};
ghost use Rattle.operations.specs.Records.{measuring_records};

use bus::log::Log;
use params::mod_params::{PacketStatus, RadioError};
use params::radio_kind_params::Register;
use params::units::Steps;
use sheets::Variant;
use signal::offsets;
use variants::records::status_records;

fn read_frf(image: &[u8], log: &mut Log<'_>) -> Steps
    requires { LogRoom 3 log.old × (length image.now ≡ 128) }
    ensures value { (result.0 ≡ tuned image.now) × (result.0 < 2 ^ 24) }
    ensures done { Logged (frf_read Sx1276) image.now log.old log.new }
{
    let msb = log.read_register(image, Register::RegFrfMsb);
    let mid = log.read_register(image, Register::RegFrfMid);
    let lsb = log.read_register(image, Register::RegFrfLsb);
    Steps::from_frf(msb, mid, lsb)
}

// The SX1276 has two ports, and what RegFrf holds tells which.
#[tactic(auto, unfolding(sheets::specs::Signal::offset))]
fn rssi_offset(image: &[u8], log: &mut Log<'_>, variant: Variant) -> i16
    requires { (end_after (frf_read variant) image.now log.old.used ≤ length log.old.bytes.now) × (length image.now ≡ 128) }
    ensures value { result ≡ offset variant (tuned image.now) }
    ensures done { Logged (frf_read variant) image.now log.old log.new }
{
    match variant {
        Variant::Sx1272 => offsets::rssi_offset(variant, Steps(0)),
        Variant::Sx1276 => offsets::rssi_offset(variant, read_frf(image, log)),
    }
}

fn measure(image: &[u8], log: &mut Log<'_>, variant: Variant) -> PacketStatus
    requires { LogRoom (measuring_records variant) log.old × (length image.now ≡ 128) }
    ensures value { told 0 (result.rssi ∷ result.snr ∷ []) ≡ measured variant image.now }
    ensures done { Logged (measuring variant) image.now log.old log.new }
{
    let packet_snr = log.read_register(image, Register::RegPktSnrValue);
    let packet_rssi = log.read_register(image, Register::RegPktRssiValue);
    let offset = rssi_offset(image, log, variant);
    signal::packet_status(offset, packet_snr, packet_rssi)
}

pub fn get_rx_packet_status(
    image: &[u8],
    log: &mut Log<'_>,
    variant: Variant,
) -> Result<PacketStatus, RadioError>
    ensures same { SameLog log.old log.new }
    ensures meets { Meets (get_status variant image.now log.old.bytes.now log.old.used) (tells_status result) log.new.used image.now [] log.new.bytes.now [] }
{
    log.admit(image, Ok(()), status_records(variant))?;
    Ok(measure(image, log, variant))
}
