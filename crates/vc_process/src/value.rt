//! Expressions of either kind.
ghost use Rattle.std.specs.Prelude.{◌≡◌, IfOk};
ghost use Rattle.vc_process.specs.Renaming.{moved_by, renamed_given};
ghost use Rattle.vc_process.specs.Terms.{given};

use crate::bytes_expression::BytesExpr;
use crate::expression::Expr;
use std::alloc::Global;
use vc_packets::Memory;

/// What is assigned to a variable or output on a channel.
#[derive(Debug, Drop)]
pub enum Value {
    /// A whole number.
    Int(Expr),
    /// Bytes.
    Bytes(BytesExpr),
}

impl Value {
    /// An equal expression.
    pub fn copy(&self, alloc: Global) -> Result<Value, Memory>
        ensures { IfOk result (λ copy. copy ≡ self.now) }
    {
        match self {
            Value::Int(number) => Ok(Value::Int(number.copy(alloc)?)),
            Value::Bytes(bytes) => Ok(Value::Bytes(bytes.copy(alloc)?)),
        }
    }
    /// The same expression over variables that are moved.
    pub(crate) fn moved(&self, alloc: Global, by: u8) -> Result<Value, Memory>
        ensures { IfOk result (λ copy. given copy ≡ renamed_given (moved_by by) (given self.now)) }
    {
        match self {
            Value::Int(number) => Ok(Value::Int(number.moved(alloc, by)?)),
            Value::Bytes(bytes) => Ok(Value::Bytes(bytes.moved(alloc, by)?)),
        }
    }
}
