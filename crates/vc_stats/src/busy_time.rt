//! After how many events something was busy.
ghost use Rattle.std.specs.Prelude.{◌≡◌};
ghost use Rattle.vc_stats.specs.Times.{busy_of};
ghost use Rattle.vc_stats.specs.Private.Times.{turned};

/// After how many events of a run something was busy, as a channel with an output that is not finished, or a buffer with a token in it.
#[derive(Clone, Copy, Drop)]
pub(crate) enum BusyTime {
    /// It is busy, and was not so after this many events.
    Busy {
        /// How many events.
        idle: u64,
    },
    /// It is not busy, and was so after this many events.
    Idle {
        /// How many events.
        busy: u64,
    },
}

impl BusyTime {
    /// After how many of so many events it was busy.
    pub(crate) fn busy(self, events: u64) -> u64
        ensures { result ≡ busy_of self events }
    {
        match self {
            BusyTime::Busy { idle } => events.saturating_sub(idle),
            BusyTime::Idle { busy } => busy,
        }
    }

    /// The same of these events, where it is busy from the next one on or not.
    pub(crate) fn turned(self, is_busy: bool, events: u64) -> BusyTime
        ensures { result ≡ turned is_busy events self }
    {
        let busy = self.busy(events);
        if is_busy {
            BusyTime::Busy {
                idle: events.saturating_sub(busy),
            }
        } else {
            BusyTime::Idle { busy }
        }
    }
}
