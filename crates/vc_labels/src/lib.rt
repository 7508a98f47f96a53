//! Interval tables: by which links of a switch a header leaves ("Networks, Routers and Transputers", chapter 1, interval labelling).
//!
//! A [`Table`] is made of rows that rise and adjoin, each a half-open interval of header values with the action for them. The
//! layer above knows that [`Table::find`] answers the action of the one row that holds a header, and nothing where no row does
//! (`specs/Interval`), and that [`Table::new`] takes exactly the lawful lists of rows, naming the first fault of any other
//! (`specs/Lawful`, `specs/Fault`). The invariant of a table is that its rows are lawful.
#![tactic(auto)]

mod action;
mod fault;
mod laws;
mod row;
mod table;

pub use action::Action;
pub use fault::{TableFault, fault_of_rows};
pub use laws::lawful_rows_have_no_fault;
pub use row::Row;
pub use table::{Table, find_action};
