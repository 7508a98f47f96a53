//! What can be wrong with the rows of a table.
ghost use Rattle.std.specs.Prelude.{◌≡◌};
ghost use Rattle.vc_labels.specs.Fault.{row_fault, link_fault, table_fault};

use crate::action::Action;
use crate::row::Row;
use thiserror::Error;

/// Why rows are no table.
#[derive(Clone, Copy, Debug, PartialEq, Eq, Drop, Error)]
pub enum TableFault {
    /// A row isn't `lower < limit <= 65,536`, or begins before the limit of the row before it.
    #[error("the rows do not rise")]
    NotRising,
    /// A row begins after the limit of the row before it.
    #[error("there is a gap between two rows")]
    Gap,
    /// A group's first link is after its last, or its last is over 31.
    #[error("a group is of no links of a switch")]
    BadLink,
}

fn fault_of_action(action: Action) -> Option<TableFault>
    ensures { result ≡ link_fault action }
{
    match action {
        Action::Out { first, last } if first > last || last > 31 => Some(TableFault::BadLink),
        _ => None,
    }
}

fn fault_of_row(start: u32, row: &Row) -> Option<TableFault>
    ensures { result ≡ row_fault start row.now }
{
    if row.limit <= row.lower || row.limit > 65536 || row.lower < start {
        Some(TableFault::NotRising)
    } else if start < row.lower {
        Some(TableFault::Gap)
    } else {
        fault_of_action(row.action)
    }
}

/// The fault of the first row that has one.
pub fn fault_of_rows(rows: &[Row]) -> Option<TableFault>
    ensures { result ≡ table_fault rows.now }
{
    let mut start = rows.first().map_or(0, |row| row.lower);
    for row in rows {
        if let Some(fault) = fault_of_row(start, row) {
            return Some(fault);
        }
        start = row.limit;
    }
    None
}
