//! Rows of a table.
ghost use Rattle.std.specs.Prelude.{◌≡◌};
ghost use Rattle.vc_labels.specs.Interval.{holds};

use crate::action::Action;

/// The action for the headers from `lower` to below `limit`.
#[derive(Clone, Copy, Debug, PartialEq, Eq, Drop)]
pub struct Row {
    /// The interval's least header.
    pub lower: u32,
    /// One more than its greatest header, at most 65,536.
    pub limit: u32,
    /// What is done with these headers.
    pub action: Action,
}

/// Whether the row's interval has this header.
pub(crate) fn row_holds(row: &Row, header: u16) -> bool
    ensures { result ≡ holds row.now header }
{
    row.lower <= u32::from(header) && u32::from(header) < row.limit
}
