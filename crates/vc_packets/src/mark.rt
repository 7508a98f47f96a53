//! End marks.

/// The control token that ends a packet ("Networks, Routers and Transputers", chapter 2).
#[derive(Clone, Copy, Debug, PartialEq, Eq, Drop)]
pub enum Mark {
    /// End of packet: more packets of the message follow, or the packet is an acknowledge.
    Eop,
    /// End of message: the packet is a message's last.
    Eom,
}
