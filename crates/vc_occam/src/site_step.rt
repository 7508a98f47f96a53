//! What one site of a running process does, on the way to the site.
ghost use Rattle.std.specs.Prelude.{◌≡◌, Some, length};
ghost use Rattle.vc_occam.specs.Frames.{view};
ghost use Rattle.vc_occam.specs.Private.Frames.{CanGo, IsAtItself, Went};
ghost use Rattle.vc_occam.specs.Private.MoveSites.{action_on};
ghost use Rattle.vc_occam.specs.Private.SiteSteps.{StepAt, one, quiet_at, step_at, whole_output};
ghost use Rattle.vc_occam.specs.SiteActions as action;
ghost use Rattle.vc_process.specs.Messages.{number_bytes};
ghost use Rattle.vc_process.specs.Terms.{store};

use crate::frame::{Choice, Construct, Frame};
use crate::outcome::Outcome;
use std::alloc::Global;
use vc_packets::Bytes;
use vc_process::Datum;

/// What a site does. Contracts know for which step of the definitions it stands, and read the channels, which the code need not know.
pub(crate) trait SiteStep {
    ghost use Rattle.vc_occam.specs.Private.SiteSteps.{StepAt};

    ghost stands_for: { Self → StepAt };

    /// The site that does it.
    fn site(&self) -> u16
        ensures { result ≡ (stands_for self.now).site };

    /// The frame's own site does it; answers what the frame comes to.
    fn act(&mut self, frame: &mut Frame, vars: &mut Vec<Datum>) -> Outcome
        requires itself { IsAtItself frame.old }
        requires can { CanGo (stands_for self.old) (view frame.old) vars.old.items }
        ensures went { Went (stands_for self.old) (view frame.old) (store vars.old.items) result
            (view frame.new) (store vars.new.items) }
        ensures length { length vars.new.items ≡ length vars.old.items };
}

/// A step without a communication. Where it assigns bytes, they come along; a number is worked out at the site.
#[derive(Drop)]
pub(crate) struct Quiet {
    pub(crate) site: u16,
    pub(crate) assigned: Option<Datum>,
}

impl SiteStep for Quiet {
    ghost stands_for = { λ s. quiet_at s.site s.assigned };

    #[inline(always)]
    fn site(&self) -> u16 {
        self.site
    }

    fn act(&mut self, frame: &mut Frame, vars: &mut Vec<Datum>) -> Outcome {
        match frame.construct.step(&mut self.assigned, vars) {
            Some(outcome) => outcome,
            None => {
                frame.stopped = true;
                Outcome::Nothing
            }
        }
    }
}

/// An output begins.
#[derive(Drop)]
pub(crate) struct Offer {
    pub(crate) site: u16,
    pub(crate) chan: u16,
}

impl SiteStep for Offer {
    ghost stands_for = { λ s. step_at s.site (one (action.Offer s.chan)) };

    #[inline(always)]
    fn site(&self) -> u16 {
        self.site
    }

    #[inline(always)]
    fn act(&mut self, frame: &mut Frame, _vars: &mut Vec<Datum>) -> Outcome {
        if let Construct::Send(output) = &mut frame.construct {
            output.begun = true;
        }
        Outcome::Nothing
    }
}

/// An output begins and is finished at once, since its message has been taken.
#[derive(Drop)]
pub(crate) struct WholeOutput {
    pub(crate) site: u16,
    pub(crate) chan: u16,
}

impl SiteStep for WholeOutput {
    ghost stands_for = { λ s. step_at s.site (whole_output s.chan) };

    #[inline(always)]
    fn site(&self) -> u16 {
        self.site
    }

    #[inline(always)]
    fn act(&mut self, _frame: &mut Frame, _vars: &mut Vec<Datum>) -> Outcome {
        Outcome::Ended
    }
}

/// What waits goes on: an output is finished, or the message comes of an input or guard.
#[derive(Drop)]
pub(crate) struct Resume {
    pub(crate) site: u16,
    pub(crate) message: Option<Bytes>,
}

impl SiteStep for Resume {
    ghost stands_for = { λ s. step_at s.site (one (action_on s.message)) };

    #[inline(always)]
    fn site(&self) -> u16 {
        self.site
    }

    #[inline(always)]
    fn act(&mut self, frame: &mut Frame, vars: &mut Vec<Datum>) -> Outcome {
        match self.message.take() {
            Some(message) => frame.construct.receive(message, vars),
            None => Outcome::Ended,
        }
    }
}

/// A channel is stopped.
#[derive(Drop)]
pub(crate) struct StopChannel {
    pub(crate) site: u16,
    pub(crate) chan: u16,
}

impl SiteStep for StopChannel {
    ghost stands_for = { λ s. step_at s.site (one (action.StopChannel s.chan)) };

    #[inline(always)]
    fn site(&self) -> u16 {
        self.site
    }

    #[inline(always)]
    fn act(&mut self, _frame: &mut Frame, _vars: &mut Vec<Datum>) -> Outcome {
        Outcome::Ended
    }
}

/// An input has its message, or waits where there is none.
#[derive(Drop)]
pub(crate) struct Want {
    pub(crate) site: u16,
    pub(crate) chan: u16,
    pub(crate) message: Option<Bytes>,
}

impl SiteStep for Want {
    ghost stands_for = { λ s. step_at s.site (one (action.Want s.chan s.message)) };

    #[inline(always)]
    fn site(&self) -> u16 {
        self.site
    }

    #[inline(always)]
    fn act(&mut self, frame: &mut Frame, vars: &mut Vec<Datum>) -> Outcome {
        match &mut frame.construct {
            Construct::Receive(input) => match self.message.take() {
                Some(message) => input.take(message, vars),
                None => {
                    input.begun = true;
                    Outcome::Nothing
                }
            },
            _ => Outcome::Nothing,
        }
    }
}

/// An input has the message that carries a number.
#[derive(Drop)]
pub(crate) struct WantNumber {
    pub(crate) alloc: Global,
    pub(crate) site: u16,
    pub(crate) chan: u16,
    pub(crate) number: i64,
}

impl SiteStep for WantNumber {
    ghost stands_for = { λ s.
        step_at s.site (one (action.Want s.chan (Some (number_bytes s.number)))) };

    #[inline(always)]
    fn site(&self) -> u16 {
        self.site
    }

    #[inline(always)]
    fn act(&mut self, frame: &mut Frame, vars: &mut Vec<Datum>) -> Outcome {
        match &mut frame.construct {
            Construct::Receive(input) => input.take_number(self.alloc, self.number, vars),
            _ => Outcome::Nothing,
        }
    }
}

/// The guard at a place of an ALT has its message, or waits where there is none.
#[derive(Drop)]
pub(crate) struct Choose {
    pub(crate) site: u16,
    pub(crate) place: u16,
    pub(crate) chan: u16,
    pub(crate) message: Option<Bytes>,
}

impl SiteStep for Choose {
    ghost stands_for = { λ s. step_at s.site (one (action.Choose s.place s.chan s.message)) };

    #[inline(always)]
    fn site(&self) -> u16 {
        self.site
    }

    #[inline(always)]
    fn act(&mut self, frame: &mut Frame, vars: &mut Vec<Datum>) -> Outcome {
        match &mut frame.construct {
            Construct::Alt(alt) => match self.message.take() {
                Some(message) => alt.take(usize::from(self.place), message, vars),
                None => {
                    alt.choice = Choice::Taken(usize::from(self.place));
                    Outcome::Nothing
                }
            },
            _ => Outcome::Nothing,
        }
    }
}
