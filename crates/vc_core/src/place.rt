//! Where packets are.

/// Where a packet is: there its end mark is.
#[derive(Clone, Copy, Debug, PartialEq, Eq, Drop)]
pub enum Place {
    /// In a send queue of the node of this number.
    Queue(u8),
    /// On the wire of this number, or in the receive buffer at its end: true where it goes from the wire's port one.
    Wire(u16, bool),
    /// In the switch of this number, at this input.
    Inside(u8, u8),
    /// Held by the node of this number.
    Held(u8),
}
