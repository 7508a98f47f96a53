//! Expressions of bytes.
ghost use Rattle.std.specs.Prelude.{◌≡◌, IfOk};
ghost use Rattle.vc_process.specs.Renaming.{moved_by, renamed_text};
ghost use Rattle.vc_process.specs.Terms.{text};

use crate::expression::moved_variable;
use sqlite_items::Items;
use std::alloc::Global;
use vc_packets::Memory;

/// An expression that is worth bytes; it is never a fault. That they are at most 65,535 is asked by `Process::is_in_length`.
#[derive(Debug, Drop)]
pub enum BytesExpr {
    /// The bytes themselves.
    Lit(Items<u8>),
    /// What the variable of this number holds.
    Var(u8),
    /// One byte, again and again.
    Fill {
        /// The byte.
        byte: u8,
        /// How often it is written.
        count: u32,
    },
}

impl BytesExpr {
    /// An equal expression.
    pub(crate) fn copy(&self, alloc: Global) -> Result<BytesExpr, Memory>
        ensures { IfOk result (λ copy. copy ≡ self.now) }
    {
        match self {
            BytesExpr::Lit(bytes) => Ok(BytesExpr::Lit(Items::from_slice(
                alloc,
                bytes.as_slice(),
            )?)),
            BytesExpr::Var(var) => Ok(BytesExpr::Var(*var)),
            BytesExpr::Fill { byte, count } => Ok(BytesExpr::Fill {
                byte: *byte,
                count: *count,
            }),
        }
    }
    /// The same expression over variables that are moved.
    pub(crate) fn moved(&self, alloc: Global, by: u8) -> Result<BytesExpr, Memory>
        ensures { IfOk result (λ copy. text copy ≡ renamed_text (moved_by by) (text self.now)) }
    {
        match self {
            BytesExpr::Lit(bytes) => Ok(BytesExpr::Lit(Items::from_slice(
                alloc,
                bytes.as_slice(),
            )?)),
            BytesExpr::Var(var) => Ok(BytesExpr::Var(moved_variable(*var, by))),
            BytesExpr::Fill { byte, count } => Ok(BytesExpr::Fill {
                byte: *byte,
                count: *count,
            }),
        }
    }
}
