//! The sites that wait on channels, as far as they are noted.
ghost use Rattle.std.specs.Prelude.{◌≡◌, ◌≢◌, ◌⊎◌, ℕ, IfSome, MatchOption, Some, None, replicate};
ghost use Rattle.vc_occam.specs.Private.Waiters.{IsNoted};
ghost use Rattle.vc_occam.specs.declared.waits.Waits.{Waits as Wanted};

use crate::waits::Waits;

/// A site that waits on a channel.
#[derive(Clone, Copy, Drop)]
pub(crate) struct Waiter {
    chan: u16,
    site: u16,
}

/// Of the sites that wait, those that began to wait last on each channel. Channels whose numbers agree modulo 256 share a place, and the
/// later one has it: a site that waits need not be noted, and one that is noted waits.
#[derive(Clone, Copy, Drop)]
pub(crate) struct Waiters {
    outputs: [Option<Waiter>; 256],
    inputs: [Option<Waiter>; 256],
}

impl Waiters {
    /// No site is noted.
    pub(crate) fn new() -> Waiters
        ensures outputs { result.outputs ≡ replicate 256 None }
        ensures inputs { result.inputs ≡ replicate 256 None }
    {
        Waiters {
            outputs: [None; 256],
            inputs: [None; 256],
        }
    }

    /// The site that is noted to wait for this, if one is.
    #[inline(always)]
    pub(crate) fn site(&self, wanted: Waits) -> Option<u16>
        ensures { MatchOption result
            ((i : ℕ) → IsNoted self.now wanted i → ⊥)
            (IsNoted self.now wanted) }
    {
        let (noted, on) = match wanted {
            Waits::Output { chan } => (self.outputs[usize::from(chan % 256)], chan),
            Waits::Input { chan } => (self.inputs[usize::from(chan % 256)], chan),
        };
        match noted {
            Some(waiter) if waiter.chan == on => Some(waiter.site),
            _ => None,
        }
    }

    /// Notes what a site waits for, with the site, if it waits.
    pub(crate) fn note(&mut self, wait: Option<(Waits, u16)>)
        ensures noted { IfSome wait (λ w. IsNoted self.new w.0 w.1) }
        ensures only { (w : Wanted) (i : ℕ) →
            IsNoted self.new w i →
            (wait ≡ Some (w, i)) ⊎ IsNoted self.old w i }
    {
        match wait {
            Some((Waits::Output { chan }, site)) => {
                self.outputs[usize::from(chan % 256)] = Some(Waiter { chan, site });
            }
            Some((Waits::Input { chan }, site)) => {
                self.inputs[usize::from(chan % 256)] = Some(Waiter { chan, site });
            }
            None => {}
        }
    }

    /// No site is noted any more that waits for this.
    pub(crate) fn forget(&mut self, wanted: Waits)
        ensures { (w : Wanted) (i : ℕ) →
            IsNoted self.new w i →
            (w ≢ wanted) × IsNoted self.old w i }
    {
        match wanted {
            Waits::Output { chan } => self.outputs[usize::from(chan % 256)] = None,
            Waits::Input { chan } => self.inputs[usize::from(chan % 256)] = None,
        }
    }
}
