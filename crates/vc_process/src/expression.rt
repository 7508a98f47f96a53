//! Expressions of whole numbers.
ghost use Rattle.std.specs.Prelude.{◌≡◌, IfOk};
ghost use Rattle.vc_process.specs.Renaming.{moved_by, renamed_exp};
ghost use Rattle.vc_process.specs.Terms.{exp};

use crate::copies::boxed;
use crate::operator::Op;
use sqlite_items::Boxed;
use std::alloc::Global;
use vc_packets::Memory;

/// An expression that is worth a whole number of 64 bits with sign, or is a fault.
#[derive(Debug)]
pub enum Expr {
    /// The number itself.
    Num(i64),
    /// What the variable of this number holds.
    Var(u8),
    /// An operator on two expressions, of which the left one is evaluated first.
    Bin {
        /// The operator.
        op: Op,
        /// The left operand.
        left: Boxed<Expr>,
        /// The right operand.
        right: Boxed<Expr>,
    },
    /// How many bytes the variable of this number holds.
    Size(u8),
}

impl Drop for Expr {
    // written, so that what holds one need not prove again how it is dropped
    #[cycle(drop)]
    fn drop(self) {
        match self {
            Expr::Num(_) => {}
            Expr::Var(_) => {}
            Expr::Bin { op: _, left, right } => {
                left.into_inner();
                right.into_inner();
            }
            Expr::Size(_) => {}
        }
    }
}

impl Expr {
    /// An equal expression.
    #[cycle(copy)]
    pub fn copy(&self, alloc: Global) -> Result<Expr, Memory>
        ensures { IfOk result (λ copy. copy ≡ self.now) }
    {
        match self {
            Expr::Num(number) => Ok(Expr::Num(*number)),
            Expr::Var(var) => Ok(Expr::Var(*var)),
            Expr::Bin { op, left, right } => {
                let left = copy_boxed(alloc, left)?;
                let right = copy_boxed(alloc, right)?;
                Ok(Expr::Bin {
                    op: *op,
                    left,
                    right,
                })
            }
            Expr::Size(var) => Ok(Expr::Size(*var)),
        }
    }

    /// The same expression over variables that are moved.
    #[cycle(moved)]
    #[tactic(auto, unfolding(crate::specs::Terms::exp))]
    pub(crate) fn moved(&self, alloc: Global, by: u8) -> Result<Expr, Memory>
        ensures { IfOk result (λ copy. exp copy ≡ renamed_exp (moved_by by) (exp self.now)) }
    {
        match self {
            Expr::Num(number) => Ok(Expr::Num(*number)),
            Expr::Var(var) => Ok(Expr::Var(moved_variable(*var, by))),
            Expr::Bin { op, left, right } => {
                let left = moved_boxed(alloc, left, by)?;
                let right = moved_boxed(alloc, right, by)?;
                Ok(Expr::Bin {
                    op: *op,
                    left,
                    right,
                })
            }
            Expr::Size(var) => Ok(Expr::Size(moved_variable(*var, by))),
        }
    }
}

/// The number of a variable that is moved by so many.
pub(crate) fn moved_variable(var: u8, by: u8) -> u8
    ensures { result ≡ moved_by by var }
{
    by.wrapping_add(var)
}

/// An expression over variables that are moved, in a box of its own.
#[cycle(moved)]
fn moved_boxed(alloc: Global, expr: &Boxed<Expr>, by: u8) -> Result<Boxed<Expr>, Memory>
    ensures { IfOk result (λ copy. exp copy ≡ renamed_exp (moved_by by) (exp expr.now)) }
{
    boxed(alloc, expr.get().moved(alloc, by))
}

/// An equal expression in a box of its own.
#[cycle(copy)]
fn copy_boxed(alloc: Global, expr: &Boxed<Expr>) -> Result<Boxed<Expr>, Memory>
    ensures { IfOk result (λ copy. copy ≡ expr.now) }
{
    boxed(alloc, expr.get().copy(alloc))
}
