// Boards: a radio, and what stands around it.
use sheets::Variant;

#[derive(Clone, Copy, PartialEq, Eq)]
pub struct Board {
    pub variant: Variant,
    pub tcxo_used: bool,
    pub tx_boost: bool,
    pub rx_boost: bool,
}
