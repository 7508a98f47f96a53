//! Kinds of values.

/// What a variable holds and a channel carries (profile).
#[derive(Clone, Copy, Debug, PartialEq, Eq, Drop)]
pub enum ValueKind {
    /// A whole number of 64 bits with sign; its message is 8 bytes, low byte first.
    Int,
    /// 0 to 65,535 bytes; they are their own message.
    Bytes,
}
