// Detection of a preamble, which spreading factor 6 wants otherwise than the others.
ghost use Rattle.std.specs.Prelude.{◌≡◌};
ghost use Rattle.sheets.specs.Modem.{detection_optimize, detection_threshold};
ghost use Rattle.bus.specs.Lent.{Room, Did};
ghost use Rattle.operations.specs.Modem.{detection};

use bus::Radio;
use params::radio_kind_params::Register;

// RegDetectionOptimize's reserved bits, which are all that the Rust keeps of it.
pub const DETECTION_RESERVED: u8 = 0x78;

// What goes into bits 2..0 of RegDetectionOptimize, and RegDetectionThreshold.
#[derive(Clone, Copy)]
pub struct Detection {
    pub optimize: u8,
    pub threshold: u8,
}

const DETECTION_SF6: Detection = Detection {
    optimize: 0x05,
    threshold: 0x0c,
};

const DETECTION_SF7_TO_SF12: Detection = Detection {
    optimize: 0x03,
    threshold: 0x0a,
};

impl Detection {
    // Of a spreading factor.
    pub fn of(spreading_factor: u8) -> Detection
        ensures optimize { result.optimize ≡ detection_optimize spreading_factor }
        ensures threshold { result.threshold ≡ detection_threshold spreading_factor }
    {
        match spreading_factor {
            6 => DETECTION_SF6,
            _ => DETECTION_SF7_TO_SF12,
        }
    }
}

pub fn write_detection(radio: &mut Radio<'_>, spreading_factor: u8)
    requires { Room 3 radio.old }
    ensures { Did (detection spreading_factor) radio.old radio.new }
{
    let values = Detection::of(spreading_factor);
    radio.modify_register(
        Register::RegDetectionOptimize,
        DETECTION_RESERVED,
        values.optimize,
    );
    radio.write_register(Register::RegDetectionThreshold, values.threshold);
}
