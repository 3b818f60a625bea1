// Interrupts set up, and interrupts that came.
ghost use Rattle.std.specs.Prelude.{[]};
ghost use Rattle.operations.specs.Interrupts.{set_irq, process_irq};
ghost use Rattle.results.specs.Exports.{Exported};

use bus::Radio;
use results::answers::told;

// Mode 6 is no mode; `rx_mode` counts where the mode is Receive.
#[unsafe(no_mangle)]
pub extern "C" fn sx127x_set_irq_params(
    image: &mut [u8],
    log: &mut [u8],
    used: usize,
    mode: u8,
    rx_mode: u8,
    results: &mut [u64],
) -> i32
    ensures { Exported (set_irq mode rx_mode image.old log.old used) results.old result image.new [] log.new [] results.new }
{
    let mut radio = Radio { image, log, used };
    let answer = sx127x::set_irq_params(&mut radio, mode, rx_mode);
    told(results, radio.used, answer)
}

// Values: 0 nothing, 1 preamble received, 2 done; after 2 in channel activity detection whether there was activity.
#[unsafe(no_mangle)]
pub extern "C" fn sx127x_process_irq_event(
    image: &mut [u8],
    log: &mut [u8],
    used: usize,
    mode: u8,
    rx_mode: u8,
    clear: u8,
    results: &mut [u64],
) -> i32
    ensures { Exported (process_irq mode rx_mode clear image.old log.old used) results.old result image.new [] log.new [] results.new }
{
    let mut radio = Radio { image, log, used };
    let answer = sx127x::process_irq_event(&mut radio, mode, rx_mode, clear);
    told(results, radio.used, answer)
}
