//! Tables of rows that rise and adjoin.
ghost use Rattle.std.specs.Prelude.{◌≡◌, true, false, nat_le, slice_get};
ghost use Rattle.std.specs.List.Sorted.{IsPartitionPoint};
ghost use Rattle.vc_labels.specs.Interval.{action_at as action_of, action_for};
ghost use Rattle.vc_labels.specs.Lawful.{IsLawful};

use crate::action::Action;
use crate::fault::{TableFault, fault_of_rows};
use crate::row::{Row, row_holds};
use sqlite_items::Items;
use std::marker::Model;

/// Rows that rise and adjoin, by which the action for a header is found. A table without rows is lawful.
#[derive(Drop)]
pub struct Table {
    rows: Items<Row>,
}

impl Model for Table {
    ghost use Rattle.std.specs.Prelude.{List};
    ghost use Rattle.vc_labels.specs.declared.row.Row.{Row};
    ghost use Rattle.vc_labels.specs.Lawful.{IsLawful};

    ghost Value = { List Row };

    ghost view = { λ t. t.rows };

    ghost invariant = { λ t. IsLawful t.rows };
}

/// The action of the first row that holds the header, if there is such a row.
pub fn find_action(rows: &[Row], header: u16) -> Option<Action>
    ensures { result ≡ action_for rows.now header }
{
    for row in rows {
        if row_holds(row, header) {
            return Some(row.action);
        }
    }
    None
}

/// The place of the first row whose limit is above the header, by halving.
fn place_of(rows: &[Row], header: u16) -> usize
    requires { IsLawful rows.now }
    ensures { IsPartitionPoint (λ row. nat_le row.limit header ≡ true)
        (λ row. nat_le row.limit header ≡ false) rows.now result }
{
    rows.partition_point(|row| row.limit <= u32::from(header))
}

/// The action of the row at a place, if there is one and it holds the header.
fn action_at(rows: &[Row], place: usize, header: u16) -> Option<Action>
    ensures { result ≡ action_of (slice_get rows.now place) header }
{
    match rows.get(place) {
        None => None,
        Some(row) => {
            if row_holds(row, header) {
                Some(row.action)
            } else {
                None
            }
        }
    }
}

/// The action of the row that holds the header, if there is one.
fn find_by_halving(rows: &[Row], header: u16) -> Option<Action>
    requires { IsLawful rows.now }
    ensures { result ≡ action_for rows.now header }
{
    action_at(rows, place_of(rows, header), header)
}

impl Table {
    ghost use Rattle.std.specs.Prelude.{◌≡◌, ◌↔◌, IsOk, MatchOption, MatchResult, Some};
    ghost use Rattle.vc_labels.specs.Fault.{table_fault};
    ghost use Rattle.vc_labels.specs.Interval.{action_for, IsOnlyAction, NoRowHolds};
    ghost use Rattle.vc_labels.specs.Lawful.{IsLawful};

    /// The table of these rows, or the fault of the first row that has one. It takes no memory.
    pub fn new(rows: Items<Row>) -> Result<Table, TableFault>
        ensures table { MatchResult result (λ t. t ≡ rows) (λ f. table_fault rows ≡ Some f) }
        ensures lawful { IsOk result ↔ IsLawful rows }
    {
        match fault_of_rows(rows.as_slice()) {
            Some(fault) => Err(fault),
            None => Ok(Table { rows }),
        }
    }

    /// Its rows, in rising order: what is known of them is that they are lawful.
    pub fn rows(&self) -> &[Row]
        ensures rows { result.now ≡ self.now }
        ensures lawful { IsLawful self.now }
    {
        self.rows.as_slice()
    }

    /// The action of the one row that holds the header, if there is such a row.
    pub fn find(&self, header: u16) -> Option<Action>
        ensures action { result ≡ action_for self.now header }
        ensures one { MatchOption result (NoRowHolds self.now header)
            (λ action. IsOnlyAction self.now header action) }
    {
        find_by_halving(self.rows.as_slice(), header)
    }
}
