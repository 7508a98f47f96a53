//! Where a packet that reaches a node is bound for.

/// Where a packet is bound for.
#[derive(Clone, Copy, Drop)]
pub(crate) enum Bound {
    /// It is an acknowledge, for the output of this block.
    Output {
        /// The block.
        block: u16,
    },
    /// It is a piece, for the input at this place, which holds nothing.
    Input {
        /// The place.
        at: usize,
    },
    /// No half may take it.
    Nowhere,
}
