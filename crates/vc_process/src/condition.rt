//! Conditions.
ghost use Rattle.std.specs.Prelude.{◌≡◌, IfOk};
ghost use Rattle.vc_process.specs.Private.MovedVariables.{moved_exp, IsMovedTest};
ghost use Rattle.vc_process.specs.Syntax.{Compare};
ghost use Rattle.vc_process.specs.Terms.{as_test};

use crate::copies::boxed;
use crate::expression::Expr;
use crate::relation::Rel;
use sqlite_items::Boxed;
use std::alloc::Global;
use vc_packets::Memory;

/// A condition, which is true, false or a fault.
#[derive(Debug)]
pub enum Cond {
    /// TRUE or FALSE.
    Always(bool),
    /// A comparison of two numbers, of which the left one is evaluated first.
    Cmp {
        /// The comparison.
        rel: Rel,
        /// The left number.
        left: Expr,
        /// The right number.
        right: Expr,
    },
    /// AND; the right side counts only where the left one is true.
    And(Boxed<Cond>, Boxed<Cond>),
    /// OR; the right side counts only where the left one is false.
    Or(Boxed<Cond>, Boxed<Cond>),
    /// NOT.
    Not(Boxed<Cond>),
}

impl Drop for Cond {
    // written, so that what holds one need not prove again how it is dropped
    #[cycle(drop)]
    fn drop(self) {
        match self {
            Cond::Always(_) => {}
            Cond::Cmp {
                rel: _,
                left: _,
                right: _,
            } => {}
            Cond::And(left, right) => {
                left.into_inner();
                right.into_inner();
            }
            Cond::Or(left, right) => {
                left.into_inner();
                right.into_inner();
            }
            Cond::Not(cond) => {
                cond.into_inner();
            }
        }
    }
}

impl Cond {
    /// An equal condition.
    #[cycle(copy)]
    pub fn copy(&self, alloc: Global) -> Result<Cond, Memory>
        ensures { IfOk result (λ copy. copy ≡ self.now) }
    {
        match self {
            Cond::Always(is_true) => Ok(Cond::Always(*is_true)),
            Cond::Cmp { rel, left, right } => copy_comparison(alloc, *rel, left, right),
            Cond::And(left, right) => {
                let (left, right) = copy_both(alloc, left, right)?;
                Ok(Cond::And(left, right))
            }
            Cond::Or(left, right) => {
                let (left, right) = copy_both(alloc, left, right)?;
                Ok(Cond::Or(left, right))
            }
            Cond::Not(cond) => {
                let cond = copy_boxed(alloc, cond)?;
                Ok(Cond::Not(cond))
            }
        }
    }

    /// The same condition over variables that are moved.
    #[cycle(moved)]
    #[tactic(auto, unfolding(crate::specs::Terms::as_test))]
    pub(crate) fn moved(&self, alloc: Global, by: u8) -> Result<Cond, Memory>
        ensures { IfOk result (λ copy. IsMovedTest by self.now copy) }
    {
        match self {
            Cond::Always(is_true) => Ok(Cond::Always(*is_true)),
            Cond::Cmp { rel, left, right } => moved_comparison(alloc, *rel, left, right, by),
            Cond::And(left, right) => {
                let left = moved_boxed(alloc, left, by)?;
                let right = moved_boxed(alloc, right, by)?;
                Ok(Cond::And(left, right))
            }
            Cond::Or(left, right) => {
                let left = moved_boxed(alloc, left, by)?;
                let right = moved_boxed(alloc, right, by)?;
                Ok(Cond::Or(left, right))
            }
            Cond::Not(cond) => {
                let cond = moved_boxed(alloc, cond, by)?;
                Ok(Cond::Not(cond))
            }
        }
    }
}

/// A comparison over variables that are moved.
#[tactic(auto, unfolding(crate::specs::Terms::as_test))]
fn moved_comparison(
    alloc: Global,
    rel: Rel,
    left: &Expr,
    right: &Expr,
    by: u8,
) -> Result<Cond, Memory>
    ensures { IfOk result (λ copy.
        as_test copy ≡ Compare rel (moved_exp by left.now) (moved_exp by right.now)) }
{
    let left = left.moved(alloc, by)?;
    let right = right.moved(alloc, by)?;
    Ok(Cond::Cmp { rel, left, right })
}

/// A condition over variables that are moved, in a box of its own.
#[cycle(moved)]
fn moved_boxed(alloc: Global, cond: &Boxed<Cond>, by: u8) -> Result<Boxed<Cond>, Memory>
    ensures { IfOk result (λ copy. IsMovedTest by cond.now copy) }
{
    boxed(alloc, cond.get().moved(alloc, by))
}

/// An equal comparison.
fn copy_comparison(alloc: Global, rel: Rel, left: &Expr, right: &Expr) -> Result<Cond, Memory>
    ensures { IfOk result (λ copy. copy ≡ Cond.Cmp rel left.now right.now) }
{
    let left = left.copy(alloc)?;
    let right = right.copy(alloc)?;
    Ok(Cond::Cmp { rel, left, right })
}

/// Two equal conditions in boxes of their own.
#[cycle(copy)]
fn copy_both(
    alloc: Global,
    left: &Boxed<Cond>,
    right: &Boxed<Cond>,
) -> Result<(Boxed<Cond>, Boxed<Cond>), Memory>
    ensures { IfOk result (λ copy. (copy.0 ≡ left.now) × (copy.1 ≡ right.now)) }
{
    let left = copy_boxed(alloc, left)?;
    let right = copy_boxed(alloc, right)?;
    Ok((left, right))
}

/// An equal condition in a box of its own.
#[cycle(copy)]
fn copy_boxed(alloc: Global, cond: &Boxed<Cond>) -> Result<Boxed<Cond>, Memory>
    ensures { IfOk result (λ copy. copy ≡ cond.now) }
{
    boxed(alloc, cond.get().copy(alloc))
}
