//! The dependencies as rows: of each port the ports on which it depends, in order.
ghost use Rattle.std.specs.Prelude.{◌≡◌, ℕ, ◌<◌, length, IfOk, OnOk, []};
ghost use Rattle.vc_cycles.specs.Private.Graph.{Gains, GainEdge, row};

use crate::number::{PORTS, number_of};
use std::alloc::Global;
use vc_packets::Memory;
use vc_plan::Port;

/// No dependencies.
pub(crate) fn no_rows(alloc: Global) -> Result<Vec<Vec<u16>>, Memory>
    ensures many { IfOk result (λ rows. length rows.items ≡ 1024) }
    ensures none { IfOk result (λ rows. (i : ℕ) → row rows.items i ≡ []) }
{
    let mut rows = Vec::new(alloc);
    for _ in 0..PORTS {
        rows.push(Vec::new(alloc))?;
    }
    Ok(rows)
}

/// Puts a number into a rising list, unless it is there.
fn put(row: &mut Vec<u16>, number: u16) -> Result<(), Memory>
    ensures { OnOk result (Gains row.old.items row.new.items number) }
{
    if let Err(place) = row.binary_search(&number) {
        row.insert(place, number)?;
    }
    Ok(())
}

/// One port depends on another.
pub(crate) fn add_edge(rows: &mut Vec<Vec<u16>>, from: Port, to: Port) -> Result<(), Memory>
    requires { length rows.old.items ≡ 1024 }
    ensures { OnOk result (GainEdge rows.old.items rows.new.items from to) }
{
    match (number_of(from), number_of(to)) {
        (Some(from), Some(to)) => put(&mut rows[usize::from(from)], to),
        _ => Ok(()),
    }
}
