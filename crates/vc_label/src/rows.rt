//! Rows of tables.
use crate::group::Group;
use crate::tables::Tables;
use std::alloc::Global;
use vc_packets::Memory;

/// How many headers a node has.
pub(crate) const BASE: u32 = 1000;

/// A row of a table: the headers from `lower` to below `limit` leave by the group.
#[derive(Clone, Copy, Debug, PartialEq, Eq, Drop)]
pub struct TableRow {
    /// The least header.
    pub lower: u32,
    /// One more than the greatest header.
    pub limit: u32,
    /// The links.
    pub group: Group,
}

/// The least header of the node at a place of the ranking.
pub(crate) fn header(place: u32) -> u32 {
    place.saturating_add(1).saturating_mul(BASE)
}

/// The rows of a switch, for nodes that have their headers in this order. Headers of nodes that the switch has no way to are in the row
/// before them.
pub(crate) fn rows(
    alloc: Global,
    tables: &Tables,
    ranking: &[u8],
    switch: u8,
) -> Result<Vec<TableRow>, Memory> {
    let mut rows = Vec::new(alloc);
    let mut open: Option<TableRow> = None;
    let mut place = 0u32;
    for node in ranking {
        let (lower, limit) = (header(place), header(place.saturating_add(1)));
        place = place.saturating_add(1);
        let Some(group) = tables.group(switch, *node) else {
            continue;
        };
        open = match open {
            Some(row) if row.group == group => Some(TableRow { limit, ..row }),
            Some(row) => {
                rows.push(TableRow {
                    limit: lower,
                    ..row
                })?;
                Some(TableRow {
                    lower,
                    limit,
                    group,
                })
            }
            None => Some(TableRow {
                lower,
                limit,
                group,
            }),
        };
    }
    if let Some(row) = open {
        rows.push(row)?;
    }
    Ok(rows)
}

/// How many rows all switches have together.
pub(crate) fn count_rows(
    alloc: Global,
    tables: &Tables,
    ranking: &[u8],
    switches: u8,
) -> Result<usize, Memory> {
    let mut count = 0usize;
    for s in 0..switches {
        count = count.saturating_add(rows(alloc, tables, ranking, s)?.len());
    }
    Ok(count)
}
