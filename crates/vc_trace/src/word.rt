//! The words of a line.

/// A word of the text of an event.
#[derive(Clone, Copy, Drop)]
pub(crate) enum Word<'a> {
    /// Bytes as they are.
    Text(&'a [u8]),
    /// A number in decimal.
    Number(u64),
}
