//! What takes the events of a run.
ghost use Rattle.std.specs.Prelude.{◌≡◌, [], ◌∷◌, ◌++◌, OnErr, OnOk, true, ⊤};
ghost use Rattle.vc_core.specs.State.{MakesEvent, state_of};

use crate::event_log::EventLog;
use vc_core::{Event, Network};
use vc_packets::Memory;

/// What takes the events of a run, in order, and sees the network after each. Contracts compare a sink with what it was before the run.
/// `holds` says of each list of a plan's events, and of each state, whether they may be the events that it has taken since then and the
/// state to which they led. `left` says whether they may be these events if it could not take the last.
pub trait EventSink {
    ghost use Rattle.std.specs.Prelude.{List, ⊤};
    ghost use Rattle.vc_core.specs.State.{State};
    ghost use Rattle.vc_core.specs.declared.event.Event.{Event};
    ghost use Rattle.vc_plan.specs.declared.plan.Plan.{Plan};

    /// Why a run ends early: memory runs out, or the sink can't take an event.
    type Fault: From<Memory> + Drop;

    ghost holds: { Self → Self → Plan → List Event → State → Type 0 };

    ghost left: { Self → Self → Plan → List Event → Type 0 } = { λ _ _ _ _. ⊤ };

    /// Whether it keeps nothing of the events. Then a run may make some that it is not handed.
    fn keeps_none(&self) -> bool
        ensures { result ≡ true →
            (from : Self) (p : Plan) (es es' : List Event) (s t : State) →
            holds from self.now p es s → holds from self.now p es' t };

    /// Takes the next event. The network is the one after it.
    fn record(&mut self, network: &Network, event: Event) -> Result<(), Self::Fault>
        ensures ok { (from : Self) (p : Plan) (es : List Event) (s : State) →
            holds from self.old p es s → MakesEvent p s event (state_of network.now) →
            OnOk result (holds from self.new p (es ++ event ∷ []) (state_of network.now)) }
        ensures err { (from : Self) (p : Plan) (es : List Event) (s : State) →
            holds from self.old p es s → MakesEvent p s event (state_of network.now) →
            OnErr result (left from self.new p (es ++ event ∷ [])) };
}

/// A log keeps them.
impl EventSink for EventLog {
    type Fault = Memory;

    ghost holds = { λ _ log p es s. log ≡ es };

    #[inline(always)]
    fn keeps_none(&self) -> bool {
        false
    }

    #[inline(always)]
    fn record(&mut self, _network: &Network, event: Event) -> Result<(), Memory> {
        self.push(event)?;
        Ok(())
    }
}

/// Events are counted by the run alone, so that its memory does not grow with them.
#[derive(Drop)]
pub(crate) struct Unlogged;

impl EventSink for Unlogged {
    type Fault = Memory;

    ghost holds = { λ _ _ _ _ _. ⊤ };

    #[inline(always)]
    fn keeps_none(&self) -> bool {
        true
    }

    #[inline(always)]
    fn record(&mut self, _network: &Network, _event: Event) -> Result<(), Memory> {
        Ok(())
    }
}
