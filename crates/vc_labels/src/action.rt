//! What a switch does with a header of an interval.

/// What a switch does with a packet whose front header is in an interval.
#[derive(Clone, Copy, Debug, PartialEq, Eq, Drop)]
pub enum Action {
    /// The packet leaves by any free link of a group.
    Out {
        /// The group's first link, 0 to 31.
        first: u8,
        /// The group's last link, `first` to 31.
        last: u8,
    },
    /// The front header goes, and the next header is looked up in the same table (profile).
    Portal,
}
