// The flags of the status byte that reading it clears.
#[derive(Clone, Copy, PartialEq, Eq, Default, Debug)]
pub struct Flags {
    // interrupt request
    pub ir: bool,
    // light pen
    pub lp: bool,
    // improper command
    pub ic: bool,
    // DMA underrun
    pub du: bool,
    // field character memory overrun
    pub fo: bool,
}
