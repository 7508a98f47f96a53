//! How a network is run in threads, and what is written of that.

/// How a network is run in threads, and what is written of that.
#[derive(Clone, Copy, Debug, PartialEq, Eq, Drop)]
pub struct ThreadOptions {
    /// The most turns that each thread makes.
    pub turns: u64,
    /// The seed of the words that random headers are made of.
    pub seed: u32,
    /// Whether it is written, after the traffic, who waits for what and where the packets are.
    pub is_why: bool,
}
