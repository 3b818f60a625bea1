// The FIFO's base addresses: `set_tx_rx_buffer_base_address`.
ghost use Rattle.params.specs.Answers.{tells_done};
ghost use Rattle.bus.specs.Lent.{Room, Did, Calls};
ghost use Rattle.operations.specs.Setup.{bases, set_bases};

use bus::Radio;
use params::mod_params::RadioError;
use params::radio_kind_params::Register;

// Both bases are 0, whatever was asked.
pub fn write_bases(radio: &mut Radio<'_>)
    requires { Room 2 radio.old }
    ensures { Did bases radio.old radio.new }
{
    radio.write_register(Register::RegFifoTxBaseAddr, 0x00);
    radio.write_register(Register::RegFifoRxBaseAddr, 0x00);
}

pub fn set_tx_rx_buffer_base_address(
    radio: &mut Radio<'_>,
    tx_base_addr: usize,
    rx_base_addr: usize,
) -> Result<(), RadioError>
    ensures { Calls (set_bases tx_base_addr rx_base_addr) (tells_done result) radio.old radio.new }
{
    radio.admit(refusals::base_addresses(tx_base_addr, rx_base_addr), 2)?;
    write_bases(radio);
    Ok(())
}
