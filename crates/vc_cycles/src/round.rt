//! The way round from a port back to it, breadth first.
ghost use Rattle.std.specs.Prelude.{◌≡◌, ℕ, ◌<◌, List, length, IfNone, IfOk, IfSome, OnOk};
ghost use Rattle.std.specs.Global.{Vec};
ghost use Rattle.std.specs.List.{Contains};
ghost use Rattle.vc_plan.specs.declared.plan.Plan.{Plan};
ghost use Rattle.vc_plan.specs.Accepted.{IsAccepted};
ghost use Rattle.vc_cycles.specs.Private.Graph.{AreDependencies};
ghost use Rattle.vc_cycles.specs.Private.Round.{AreRows, IsAway, IsLeastRound, LooksAt, PointsBack, Settled, found_after, seen_after, way_to};

use crate::number::{PORTS, port_at};
use std::alloc::Global;
use vc_packets::Memory;
use vc_plan::Port;

/// A port that the search found, and the place in the search's list of the one that depends on it.
#[derive(Clone, Copy, Drop)]
struct Found {
    port: u16,
    from: usize,
}

/// What was found from one port on, in order, and what was seen.
#[derive(Drop)]
struct Round {
    found: Vec<Found>,
    seen: Vec<bool>,
}

impl Round {
    /// The port at which the search begins, alone. It is not seen: the search asks of each port whether it depends on the first.
    fn new(alloc: Global, start: u16) -> Result<Round, Memory>
        requires { start < 1024 }
        ensures { (rows : List (Vec ℕ)) →
            IfOk result (λ r. Settled rows start 0 r.found.items r.seen.items) }
    {
        let mut found = Vec::new(alloc);
        found.push(Found {
            port: start,
            from: 0,
        })?;
        let seen = vec![in alloc; false; PORTS]?;
        Ok(Round { found, seen })
    }

    /// Finds a port, from the one at a place of the list, unless it was seen.
    fn find(&mut self, port: u16, from: usize) -> Result<(), Memory>
        requires { port < length self.old.seen.items }
        ensures found { OnOk result (self.new.found.items
            ≡ found_after self.old.found.items self.old.seen.items port from) }
        ensures seen { OnOk result (self.new.seen.items ≡ seen_after self.old.seen.items port) }
    {
        if self.seen[usize::from(port)] {
            return Ok(());
        }
        self.found.push(Found { port, from })?;
        self.seen[usize::from(port)] = true;
        Ok(())
    }

    /// Finds each port of the row of the one at a place of the list.
    fn look(&mut self, row: &[u16], at: usize) -> Result<(), Memory>
        requires many { length self.old.seen.items ≡ 1024 }
        requires small { (j : ℕ) → Contains row.now j → j < 1024 }
        ensures { OnOk result (LooksAt row.now at (length row.now) self.old self.new) }
    {
        for port in row {
            self.find(*port, at)?;
        }
        Ok(())
    }

    /// The ports on the way to the one at a place of the list, in order.
    fn path(&self, alloc: Global, last: usize) -> Result<Vec<Port>, Memory>
        requires within { last < length self.now.found.items }
        requires back { PointsBack self.now.found.items }
        ensures { IfOk result (λ ports. ports.items ≡ way_to self.now.found.items last) }
    {
        let mut ports = Vec::new(alloc);
        let mut at = last;
        while at != 0 {
            let found = self.found[at];
            ports.insert(0, port_at(found.port))?;
            at = found.from;
        }
        ports.insert(0, port_at(self.found[0].port))?;
        Ok(ports)
    }
}

/// The ports on the least way from a port back to it: the one with the fewest ports, and of those the first by the ports in order. None
/// where there is no way back.
pub(crate) fn find_round(
    alloc: Global,
    rows: &[Vec<u16>],
    start: u16,
) -> Result<Option<Vec<Port>>, Memory>
    requires rows { AreRows rows.now }
    requires start { start < 1024 }
    ensures none { IfOk result (λ found. IfNone found (IsAway rows.now start)) }
    ensures some { (net : Plan) → IsAccepted net → AreDependencies net rows.now →
        IfOk result (λ found. IfSome found (λ ports. IsLeastRound net start ports.items)) }
{
    let mut round = Round::new(alloc, start)?;
    let mut at = 0;
    while at < round.found.len() {
        let row = rows[usize::from(round.found[at].port)].as_slice();
        if row.contains(&start) {
            return Ok(Some(round.path(alloc, at)?));
        }
        round.look(row, at)?;
        at += 1;
    }
    Ok(None)
}
