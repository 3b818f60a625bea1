// A sent packet by the eight numbers of its line, and what is wrong with them.
ghost use Rattle.std.specs.Prelude.{◌≡◌};
ghost use Rattle.time_on_air.specs.Packet.{sheet_fault, flag_fault, code_fault, packet_fault};

use params::line_faults::LineFault;

#[derive(Clone, Copy)]
pub struct Packet {
    pub id: u64,
    pub spreading_factor: u64,
    pub bandwidth: u64,
    pub coding_rate: u64,
    pub preamble: u64,
    pub length: u64,
    pub implicit_header: u64,
    pub crc_on: u64,
}

#[tactic(auto, unfolding(crate::specs::Packet::sheet_fault))]
fn sheet_fault(sf: u64, implicit: u64) -> Result<(), LineFault>
    ensures { result ≡ sheet_fault sf implicit }
{
    if sf == 5 {
        return Err(LineFault::Sf5);
    }
    if sf == 6 && implicit == 0 {
        return Err(LineFault::Sf6Explicit);
    }
    Ok(())
}

#[tactic(auto, unfolding(crate::specs::Packet::flag_fault))]
fn flag_fault(sf: u64, implicit: u64, crc: u64) -> Result<(), LineFault>
    ensures { result ≡ flag_fault sf implicit crc }
{
    if implicit > 1 {
        return Err(LineFault::Header);
    }
    if crc > 1 {
        return Err(LineFault::Crc);
    }
    sheet_fault(sf, implicit)
}

#[tactic(auto, unfolding(crate::specs::Packet::code_fault))]
fn code_fault(sf: u64, bw: u64, cr: u64, implicit: u64, crc: u64) -> Result<(), LineFault>
    ensures { result ≡ code_fault sf bw cr implicit crc }
{
    if sf < 5 || sf > 12 {
        return Err(LineFault::SpreadingFactor);
    }
    if bw > 9 {
        return Err(LineFault::Bandwidth);
    }
    if cr < 1 || cr > 4 {
        return Err(LineFault::CodingRate);
    }
    flag_fault(sf, implicit, crc)
}

// First what is out of its range, wherever it stands in the line.
#[tactic(auto, unfolding(crate::specs::Packet::packet_fault))]
pub fn packet_fault(p: Packet) -> Result<(), LineFault>
    ensures { result ≡ packet_fault p }
{
    if p.id > 4294967295 {
        return Err(LineFault::Id);
    }
    if p.preamble > 65535 {
        return Err(LineFault::Preamble);
    }
    if p.length > 255 {
        return Err(LineFault::Length);
    }
    code_fault(
        p.spreading_factor,
        p.bandwidth,
        p.coding_rate,
        p.implicit_header,
        p.crc_on,
    )
}
