//! What blocks a part of a running process.

/// What a part of a process is at that does not go on by itself. Sites are preorder numbers, and channels the plan's numbers.
#[derive(Clone, Copy, Debug, PartialEq, Eq, Drop)]
pub enum Blocked {
    /// An output that has not ended.
    Output {
        /// The output's site.
        site: u16,
        /// The channel.
        chan: u16,
    },
    /// An input that has not ended, or an ALT whose guard was taken and whose message has not come.
    Input {
        /// The site of the input or the ALT.
        site: u16,
        /// The channel.
        chan: u16,
    },
    /// An ALT: this is one of its open guards.
    Guard {
        /// The ALT's site.
        site: u16,
        /// The guard's channel.
        chan: u16,
    },
    /// An ALT without an open guard.
    Closed {
        /// The ALT's site.
        site: u16,
    },
    /// An ALT, of which a condition is a fault.
    Undecided {
        /// The ALT's site.
        site: u16,
    },
    /// STOP.
    Stop {
        /// Its site.
        site: u16,
    },
    /// A fault, or an IF without a true condition, where the part has stopped.
    Stopped {
        /// The site of the process that the fault or the IF has stopped.
        site: u16,
    },
}
