//! Steps without a communication in a row, on one way down the frames.
ghost use Rattle.std.specs.Prelude.{◌≡◌, ◌<◌, ◌-◌, None, length};
ghost use Rattle.vc_occam.specs.Frames.{outcome_of, view};
ghost use Rattle.vc_occam.specs.Private.Frames.{CanGo, shown};
ghost use Rattle.vc_occam.specs.Private.SiteSteps.{quiet_at};
ghost use Rattle.vc_occam.specs.Private.StepsInARow.{Stepped};
ghost use Rattle.vc_occam.specs.declared.outcome.Outcome.TheVariants.{Quiet as is_quiet};
ghost use Rattle.vc_process.specs.Terms.{store};

use crate::frame::{Construct, Frame, Task};
use crate::outcome::Outcome;
use crate::site_step::Quiet;
use vc_process::Datum;

/// Steps that may be made in a row: how many are left, and the site that made the last one.
#[derive(Clone, Copy, Debug, PartialEq, Eq, Drop)]
pub struct Steps {
    /// How many are left.
    pub left: u64,
    /// The site that made the last one.
    pub last: u16,
}

impl Task<Frame> {
    /// Makes steps without a communication, the first at this site, as long as each is known to be its only move, and at most as many as
    /// are left.
    pub(crate) fn make_steps(&mut self, site: u16, steps: &mut Steps, vars: &mut Vec<Datum>)
        requires can { CanGo (quiet_at site None) (shown self.old) vars.old.items }
        requires begins { self.old.begins ≡ is_quiet site }
        requires some { 0 < steps.old.left }
        ensures fewer { steps.new.left < steps.old.left }
        ensures stepped { Stepped site (steps.old.left - steps.new.left) steps.new.last
            (shown self.old) (store vars.old.items) self.new.begins (shown self.new)
            (store vars.new.items) }
        ensures length { length vars.new.items ≡ length vars.old.items }
    {
        self.begins = self.frame.make_steps(site, steps, vars);
    }
}

impl Frame {
    /// Makes steps without a communication, the first at this site, as long as each is known to be its only move, and at most as many as
    /// are left; answers what it comes to.
    #[cycle(steps)]
    pub(crate) fn make_steps(
        &mut self,
        site: u16,
        steps: &mut Steps,
        vars: &mut Vec<Datum>,
    ) -> Outcome
        requires can { CanGo (quiet_at site None) (view self.old) vars.old.items }
        requires only { outcome_of (view self.old).rest ≡ is_quiet site }
        requires some { 0 < steps.old.left }
        ensures fewer { steps.new.left < steps.old.left }
        ensures stepped { Stepped site (steps.old.left - steps.new.left) steps.new.last
            (view self.old) (store vars.old.items) result (view self.new) (store vars.new.items) }
        ensures length { length vars.new.items ≡ length vars.old.items }
    {
        let mut outcome = self.make_steps_within(site, steps, vars);
        loop {
            match outcome {
                Outcome::Quiet { site } if steps.left > 0 => {
                    outcome = self.make_steps_within(site, steps, vars);
                }
                _ => return outcome,
            }
        }
    }

    /// Makes one step, or as many as it can in the part that goes on alone, which may end then.
    #[cycle(steps)]
    fn make_steps_within(&mut self, site: u16, steps: &mut Steps, vars: &mut Vec<Datum>) -> Outcome
        requires can { CanGo (quiet_at site None) (view self.old) vars.old.items }
        requires only { outcome_of (view self.old).rest ≡ is_quiet site }
        requires some { 0 < steps.old.left }
        ensures fewer { steps.new.left < steps.old.left }
        ensures stepped { Stepped site (steps.old.left - steps.new.left) steps.new.last
            (view self.old) (store vars.old.items) result (view self.new) (store vars.new.items) }
        ensures length { length vars.new.items ≡ length vars.old.items }
    {
        match &mut self.construct {
            Construct::Seq(seq) => {
                let outcome = seq.parts[seq.at].make_steps(site, steps, vars);
                if outcome.has_ended() {
                    return seq.next();
                }
                outcome
            }
            Construct::If(branching) => match branching.taken {
                Some(at) => branching.branches[at].body.make_steps(site, steps, vars),
                None => self.make_step(site, steps, vars),
            },
            Construct::While(looping) if looping.turning => {
                let outcome = looping.body.make_steps(site, steps, vars);
                if outcome.has_ended() {
                    looping.turning = false;
                    return Outcome::Quiet { site: self.site };
                }
                outcome
            }
            _ => self.make_step(site, steps, vars),
        }
    }

    /// Makes one step.
    fn make_step(&mut self, site: u16, steps: &mut Steps, vars: &mut Vec<Datum>) -> Outcome
        requires can { CanGo (quiet_at site None) (view self.old) vars.old.items }
        requires some { 0 < steps.old.left }
        ensures fewer { steps.new.left < steps.old.left }
        ensures stepped { Stepped site (steps.old.left - steps.new.left) steps.new.last
            (view self.old) (store vars.old.items) result (view self.new) (store vars.new.items) }
        ensures length { length vars.new.items ≡ length vars.old.items }
    {
        steps.left -= 1;
        steps.last = site;
        self.go(
            &mut Quiet {
                site,
                assigned: None,
            },
            vars,
        )
    }
}
