//! How full a buffer is.
ghost use Rattle.std.specs.Prelude.{◌≡◌};
ghost use Rattle.vc_stats.specs.Private.Buffers.{holding};
ghost use Rattle.vc_stats.specs.Buffers.{unused};

use crate::busy_time::BusyTime;

/// How many tokens a buffer held at most, and after how many events it held one.
#[derive(Clone, Copy, Drop)]
pub(crate) struct Occupancy {
    /// How many tokens at once, at most.
    pub(crate) most: u64,
    /// After how many events one.
    pub(crate) time: BusyTime,
}

impl Occupancy {
    /// It never held a token.
    pub(crate) fn unused() -> Occupancy
        ensures { result ≡ unused }
    {
        Occupancy {
            most: 0,
            time: BusyTime::Idle { busy: 0 },
        }
    }

    /// The same of these events, where it holds so many tokens from the next one on.
    pub(crate) fn holding(self, tokens: u64, events: u64) -> Occupancy
        ensures { result ≡ holding tokens events self }
    {
        Occupancy {
            most: self.most.max(tokens),
            time: self.time.turned(tokens > 0, events),
        }
    }
}
