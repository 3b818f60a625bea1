// Whether a link is accepted: what refuses it, in the order of the numbers; and, without that, whether it is.
ghost use Rattle.std.specs.Prelude.{◌≡◌, Bool, MatchOption};
ghost use Rattle.refusals.specs.Refusals.{link_refusal};
ghost use Rattle.page.specs.Links.{accepted, Accepted};
ghost use Rattle.page.proofs.Acceptance.{Ranges, narrowest};
ghost use Rattle.programming.specs.Parts.{link_named, link_had};

use modem::parameter_refusals::{modulation_had, modulation_named, packet_named};
use params::board::Board;
use params::mod_params::{Link, RadioError};
use refusals::availability::frequency_range;
use refusals::codes::flag;
use refusals::link_refusals::{bandwidth_for_frequency, header_for_spreading_factor};
use sheets::Variant;

// A link that a board accepts, and so with its numbers in their ranges.
#[derive(Clone, Copy)]
pub struct AcceptedLink {
    pub board: Board,
    pub link: Link,
    pub ghost accepted: { Accepted board link },
    pub ghost in_range: { Ranges board.variant link },
}

impl AcceptedLink {
    #[tactic(auto, using(page::proofs::Acceptance::ranges))]
    pub fn new(board: Board, link: Link) -> Option<AcceptedLink>
        ensures { MatchOption result (accepted board.variant link ≡ Bool.false) (λ a. (a.board ≡ board) × (a.link ≡ link)) }
    {
        if accepts(board.variant, link) {
            Some(AcceptedLink { board, link })
        } else {
            None
        }
    }
}

// 8 for each code of a link.
fn link_named(link: Link) -> Result<(), RadioError>
    ensures { result ≡ link_named link }
{
    flag(link.public_network)?;
    modulation_named(link.spreading_factor, link.bandwidth, link.coding_rate)?;
    packet_named(link.implicit_header, link.crc_on, link.iq_inverted)
}

// 14, 15, 16, 17, 23.
fn link_had(variant: Variant, link: Link) -> Result<(), RadioError>
    ensures { result ≡ link_had variant link }
{
    modulation_had(variant, link.spreading_factor, link.bandwidth)?;
    bandwidth_for_frequency(link.bandwidth, link.frequency)?;
    header_for_spreading_factor(link.spreading_factor, link.implicit_header)?;
    frequency_range(link.frequency)
}

// The first bandwidth that a variant has.
fn narrowest(variant: Variant) -> u8
    ensures { result ≡ narrowest variant }
{
    match variant {
        Variant::Sx1272 => 7,
        Variant::Sx1276 => 0,
    }
}

#[tactic(auto, using(crate::proofs::acceptance::Ranges::refused, crate::proofs::acceptance::Ranges::granted))]
pub fn accepts(variant: Variant, link: Link) -> bool
    ensures { result ≡ accepted variant link }
{
    let sf = link.spreading_factor;
    let bw = link.bandwidth;
    let hz = link.frequency.0;
    if sf < 6 || sf > 12 || bw < narrowest(variant) || bw > 9 {
        return false;
    }
    if link.coding_rate < 1 || link.coding_rate > 4 || hz >= 1_024_000_000 {
        return false;
    }
    if link.public_network > 1
        || link.implicit_header > 1
        || link.crc_on > 1
        || link.iq_inverted > 1
    {
        return false;
    }
    // 250 and 500 kHz want 400 MHz
    if bw > 7 && hz < 400_000_000 {
        return false;
    }
    // spreading factor 6 wants the implicit header
    sf > 6 || link.implicit_header == 1
}

// Most links are accepted, and a row of verdicts is dear.
pub fn link_refusal(variant: Variant, link: Link) -> Result<(), RadioError>
    ensures { result ≡ link_refusal variant link }
{
    if accepts(variant, link) {
        return Ok(());
    }
    link_named(link)?;
    link_had(variant, link)
}
