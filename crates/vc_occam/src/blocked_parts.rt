//! What the parts of a process are at that do not go on by themselves.
ghost use Rattle.std.specs.Prelude.{◌≡◌, false, map, true};
ghost use Rattle.vc_occam.specs.Private.BlockedParts.{Adds, listed_one};
ghost use Rattle.vc_occam.specs.BlockedParts.{blocked as blocked_at, blocked_fresh, open_guards};
ghost use Rattle.vc_occam.specs.Frames.{guards_of, rest_of, view};
ghost use Rattle.vc_occam.specs.Private.Frames.{IsAtItself, is_open_alt, output_shape, seen_guard, shown};
ghost use Rattle.vc_process.specs.Syntax.{ALT};
ghost use Rattle.vc_process.specs.Terms.{store};

use crate::blocked::Blocked;
use crate::frame::{Choice, Construct, Frame, Guard, Output, Task};
use crate::guards::are_decided;
use sqlite_items::Items;
use vc_packets::Memory;
use vc_process::Datum;

impl Task<Frame> {
    /// Adds what its parts are at that do not go on by themselves, in order of site.
    #[cycle(blocked)]
    pub(crate) fn push_blocked(
        &self,
        found: &mut Items<Blocked>,
        vars: &[Datum],
    ) -> Result<(), Memory>
        requires { (shown self.now).sound ≡ true }
        ensures { Adds found.old found.new
            (blocked_at (shown self.now).rest (store vars.now)) result }
    {
        if self.begins.has_ended() {
            return Ok(());
        }
        self.frame.push_blocked(found, vars)
    }
}

impl Frame {
    /// Adds what its parts are at that do not go on by themselves, in order of site.
    #[cycle(blocked)]
    fn push_blocked(&self, found: &mut Items<Blocked>, vars: &[Datum]) -> Result<(), Memory>
        requires { (view self.now).sound ≡ true }
        ensures { Adds found.old found.new (blocked_at (view self.now).rest (store vars.now))
            result }
    {
        if let Some(part) = self.part() {
            return part.push_blocked(found, vars);
        }
        if let Construct::Par(par) = &self.construct {
            for task in par.tasks.as_slice() {
                task.push_blocked(found, vars)?;
            }
            return Ok(());
        }
        if let Some(guards) = self.open_guards() {
            return push_alt(guards, found, self.site, vars);
        }
        if let Some(blocked) = self.own_blocked(vars) {
            found.push(blocked)?;
        }
        Ok(())
    }

    /// What its own site is at, where it does not go on by itself, and is no ALT that has taken no guard.
    fn own_blocked(&self, vars: &[Datum]) -> Option<Blocked>
        requires alone { IsAtItself self.now }
        requires sound { (view self.now).sound ≡ true }
        requires decided { is_open_alt (view self.now).rest ≡ false }
        ensures { blocked_at (view self.now).rest (store vars.now) ≡ listed_one result }
    {
        let site = self.site;
        if self.stopped {
            return Some(Blocked::Stopped { site });
        }
        match &self.construct {
            Construct::Stop => Some(Blocked::Stop { site }),
            Construct::Send(output) => output.blocked(site, vars),
            Construct::Receive(input) => Some(Blocked::Input {
                site,
                chan: input.chan,
            }),
            Construct::Alt(alt) => match alt.choice {
                Choice::Taken(at) => Some(Blocked::Input {
                    site,
                    chan: alt.guards[at].chan,
                }),
                _ => None,
            },
            _ => None,
        }
    }
}

impl Output {
    /// What it is at; where its value is a fault it stops by itself.
    fn blocked(&self, site: u16, vars: &[Datum]) -> Option<Blocked>
        ensures { blocked_at (rest_of site (output_shape self.now)) (store vars.now) ≡
            listed_one result }
    {
        if self.begun || self.value.has_value(vars) {
            return Some(Blocked::Output {
                site,
                chan: self.chan,
            });
        }
        None
    }
}

/// Adds what an ALT is at that has taken no guard: its open guards, or that it has none, or that a condition is a fault.
fn push_alt(
    guards: &[Guard<Frame>],
    found: &mut Items<Blocked>,
    site: u16,
    vars: &[Datum],
) -> Result<(), Memory>
    ensures { Adds found.old found.new
        (blocked_fresh (ALT site (guards_of (map seen_guard guards.now))) (store vars.now))
        result }
{
    if !are_decided(guards, vars) {
        found.push(Blocked::Undecided { site })?;
        return Ok(());
    }
    let before = found.len();
    push_open(guards, found, site, vars)?;
    if found.len() == before {
        found.push(Blocked::Closed { site })?;
    }
    Ok(())
}

/// Adds the guards whose condition is true.
fn push_open(
    guards: &[Guard<Frame>],
    found: &mut Items<Blocked>,
    site: u16,
    vars: &[Datum],
) -> Result<(), Memory>
    ensures { Adds found.old found.new
        (open_guards site (guards_of (map seen_guard guards.now)) (store vars.now)) result }
{
    for guard in guards {
        if guard.is_open(vars) {
            found.push(Blocked::Guard {
                site,
                chan: guard.chan,
            })?;
        }
    }
    Ok(())
}
