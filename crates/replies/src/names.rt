// The errors by name, and by number and name.
#![tactic(auto, using(text::proofs::printing::Appending::texts))]

ghost use Rattle.std.specs.Prelude.{◌≡◌, ◌+◌, ◌≤◌, length};
ghost use Rattle.text.specs.Text.{Space, Put};
ghost use Rattle.replies.specs.Names.{name_of, error_text};

use params::mod_params::RadioError;
use text::printing::Text;

// No Display: a name is put into a lent place, and callers count on its length, which a `fmt` does not say.
fn name(e: RadioError) -> &'static [u8]
    ensures value { result.now ≡ name_of e }
    ensures short { length result.now ≤ 31 }
{
    match e {
        RadioError::SPI => b"SPI",
        RadioError::Reset => b"Reset",
        RadioError::RfSwitchRx => b"RfSwitchRx",
        RadioError::RfSwitchTx => b"RfSwitchTx",
        RadioError::Busy => b"Busy",
        RadioError::Irq => b"Irq",
        RadioError::DIO1 => b"DIO1",
        RadioError::InvalidConfiguration => b"InvalidConfiguration",
        RadioError::InvalidRadioMode => b"InvalidRadioMode",
        RadioError::OpError(_) => b"OpError",
        RadioError::InvalidBaseAddress(_, _) => b"InvalidBaseAddress",
        RadioError::PayloadSizeUnexpected(_) => b"PayloadSizeUnexpected",
        RadioError::PayloadSizeMismatch(_, _) => b"PayloadSizeMismatch",
        RadioError::UnavailableSpreadingFactor => b"UnavailableSpreadingFactor",
        RadioError::UnavailableBandwidth => b"UnavailableBandwidth",
        RadioError::InvalidBandwidthForFrequency => b"InvalidBandwidthForFrequency",
        RadioError::InvalidSF6ExplicitHeaderRequest => b"InvalidSF6ExplicitHeaderRequest",
        RadioError::InvalidOutputPowerForFrequency => b"InvalidOutputPowerForFrequency",
        RadioError::TransmitTimeout => b"TransmitTimeout",
        RadioError::ReceiveTimeout => b"ReceiveTimeout",
        RadioError::DutyCycleUnsupported => b"DutyCycleUnsupported",
        RadioError::RngUnsupported => b"RngUnsupported",
        RadioError::FrequencyOutOfRange => b"FrequencyOutOfRange",
        RadioError::LogFull => b"LogFull",
        RadioError::CarrierUnsupported => b"CarrierUnsupported",
        RadioError::BadImage => b"BadImage",
        RadioError::NotALink => b"NotALink",
        RadioError::BadLine => b"BadLine",
        RadioError::BadHex => b"BadHex",
        RadioError::BadSum => b"BadSum",
        RadioError::WrongPlace => b"WrongPlace",
        RadioError::Incomplete => b"Incomplete",
        RadioError::TextFull => b"TextFull",
    }
}

pub fn put_name(e: RadioError, out: &mut Text<'_>)
    requires { Space 31 out.old }
    ensures appended { Put (name_of e) out.old out.new }
    ensures upper_bound { out.new.end ≤ out.old.end + 31 }
{
    out.put(name(e));
}

// The number and the name, before what was wrong.
pub fn put_error(e: RadioError, out: &mut Text<'_>)
    requires { Space 54 out.old }
    ensures appended { Put (error_text e) out.old out.new }
    ensures upper_bound { out.new.end ≤ out.old.end + 54 }
{
    out.put_decimal(e.number() as u64);
    out.put(b" ");
    put_name(e, out);
    out.put(b": ");
}
