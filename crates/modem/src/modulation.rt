// Modulation: `set_modulation_params`.
ghost use Rattle.std.specs.Prelude.{◌≡◌, Ok};
ghost use Rattle.sheets.specs.Modem.{bandwidth_code};
ghost use Rattle.params.specs.Answers.{tells_done};
ghost use Rattle.bus.specs.Lent.{Room, Did, Calls};
ghost use Rattle.operations.specs.Modem.{modem, modulation_refusal, modulation_steps, set_modulation};
ghost use Rattle.operations.specs.Records.{modem_records, modulation_records};

use crate::detection::write_detection;
use crate::parameter_refusals::{modulation_had, modulation_named};
use bus::Radio;
use params::mod_params::{ModulationParams, RadioError};
use refusals::codes;
use sheets::Variant;
use variants::records::modulation_records;
use variants::{sx1272, sx1276};

// Each variant has its own modem registers.
fn write_modem(radio: &mut Radio<'_>, variant: Variant, p: ModulationParams)
    requires room { Room (modem_records variant) radio.old }
    requires p_value { modulation_refusal variant p ≡ Ok tt }
    ensures { Did (modem variant p.spreading_factor (bandwidth_code variant p.bandwidth) p.coding_rate p.low_data_rate_optimize) radio.old radio.new }
{
    match variant {
        Variant::Sx1272 => sx1272::set_modulation_params(radio, p),
        Variant::Sx1276 => sx1276::set_modulation_params(radio, p),
    }
}

// Part of each caller's code: out of line, the radio would lie in memory, and whole programming take half as long again.
#[inline(always)]
pub fn write_modulation(radio: &mut Radio<'_>, variant: Variant, p: ModulationParams)
    requires room { Room (modulation_records variant) radio.old }
    requires p_value { modulation_refusal variant p ≡ Ok tt }
    ensures { Did (modulation_steps variant p) radio.old radio.new }
{
    write_detection(radio, p.spreading_factor);
    write_modem(radio, variant, p);
}

fn modulation_refusal(variant: Variant, p: ModulationParams) -> Result<(), RadioError>
    ensures { result ≡ modulation_refusal variant p }
{
    modulation_named(p.spreading_factor, p.bandwidth, p.coding_rate)?;
    codes::flag(p.low_data_rate_optimize)?;
    modulation_had(variant, p.spreading_factor, p.bandwidth)
}

pub fn set_modulation_params(
    radio: &mut Radio<'_>,
    variant: Variant,
    mdltn_params: ModulationParams,
) -> Result<(), RadioError>
    ensures { Calls (set_modulation variant mdltn_params) (tells_done result) radio.old radio.new }
{
    let asked = modulation_refusal(variant, mdltn_params);
    radio.admit(asked, modulation_records(variant))?;
    write_modulation(radio, variant, mdltn_params);
    Ok(())
}
