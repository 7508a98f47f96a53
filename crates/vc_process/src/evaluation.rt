//! What expressions and conditions are worth.
ghost use Rattle.std.specs.Prelude.{◌≡◌, IfOk, is_some};
ghost use Rattle.vc_process.specs.Terms.{store, exp, as_test, text, given};
ghost use Rattle.vc_process.specs.Values.{assigned_bytes, whole_of, bytes_of, result as result_of, value_of, compares, holds, text_of, datum_of};

use crate::bytes_expression::BytesExpr;
use crate::condition::Cond;
use crate::datum::Datum;
use crate::expression::Expr;
use crate::operator::Op;
use crate::relation::Rel;
use crate::value::Value;
use std::alloc::Global;
use vc_packets::{Bytes, Memory};

/// The whole number of a variable, or 0 where it holds none.
fn whole_at(vars: &[Datum], var: u8) -> i64
    ensures { result ≡ whole_of (store vars.now var) }
{
    match vars.get(usize::from(var)) {
        Some(Datum::Int(number)) => *number,
        _ => 0,
    }
}

/// The bytes of a variable, or none where it holds none.
fn bytes_at(vars: &[Datum], var: u8) -> &[u8]
    ensures { result.now ≡ bytes_of (store vars.now var) }
{
    match vars.get(usize::from(var)) {
        Some(Datum::Bytes(bytes)) => bytes.as_slice(),
        _ => &[],
    }
}

impl Op {
    /// The result of the operator, or None where it is a fault.
    fn apply(self, left: i64, right: i64) -> Option<i64>
        ensures { result ≡ result_of self left right }
    {
        match self {
            Op::Add => left.checked_add(right),
            Op::Sub => left.checked_sub(right),
            Op::Mul => left.checked_mul(right),
            Op::Div => left.checked_div(right),
            Op::Rem => left.checked_rem(right),
        }
    }
}

impl Rel {
    /// Whether the comparison is true.
    fn compare(self, left: i64, right: i64) -> bool
        ensures { result ≡ compares self left right }
    {
        match self {
            Rel::Eq => left == right,
            Rel::Ne => left != right,
            Rel::Lt => left < right,
            Rel::Gt => left > right,
            Rel::Le => left <= right,
            Rel::Ge => left >= right,
        }
    }
}

impl Expr {
    /// The value of the expression, or None where it is a fault; of a number or a variable at once.
    #[cycle(value)]
    #[inline(always)]
    #[tactic(auto, unfolding(crate::specs::Terms::exp))]
    pub fn value(&self, vars: &[Datum]) -> Option<i64>
        ensures { result ≡ value_of (exp self.now) (store vars.now) }
    {
        match self {
            Expr::Num(number) => Some(*number),
            Expr::Var(var) => Some(whole_at(vars, *var)),
            _ => self.computed(vars),
        }
    }

    /// The value of any expression, or None where it is a fault.
    #[cycle(value)]
    #[inline(never)]
    #[tactic(auto, unfolding(crate::specs::Terms::exp))]
    fn computed(&self, vars: &[Datum]) -> Option<i64>
        ensures { result ≡ value_of (exp self.now) (store vars.now) }
    {
        if let Expr::Bin { op, left, right } = self {
            let left = left.get().value(vars)?;
            let right = right.get().value(vars)?;
            return op.apply(left, right);
        }
        match self {
            Expr::Num(number) => Some(*number),
            Expr::Var(var) => Some(whole_at(vars, *var)),
            Expr::Bin { .. } => unreachable!(),
            Expr::Size(var) => i64::try_from(bytes_at(vars, *var).len()).ok(),
        }
    }
}

impl Cond {
    /// Whether the condition holds, or None where it is a fault.
    #[tactic(auto, unfolding(crate::specs::Terms::as_test))]
    pub fn holds(&self, vars: &[Datum]) -> Option<bool>
        ensures { result ≡ holds (as_test self.now) (store vars.now) }
    {
        match self {
            Cond::Always(yes) => Some(*yes),
            Cond::Cmp { rel, left, right } => {
                let left = left.value(vars)?;
                let right = right.value(vars)?;
                Some(rel.compare(left, right))
            }
            Cond::And(left, right) => match left.get().holds(vars) {
                Some(true) => right.get().holds(vars),
                Some(false) => Some(false),
                None => None,
            },
            Cond::Or(left, right) => match left.get().holds(vars) {
                Some(true) => Some(true),
                Some(false) => right.get().holds(vars),
                None => None,
            },
            Cond::Not(cond) => Some(!cond.get().holds(vars)?),
        }
    }
}

/// The same bytes in memory of their own.
fn bytes_from(alloc: Global, bytes: &[u8]) -> Result<Bytes, Memory>
    ensures { IfOk result (λ copy. copy ≡ bytes.now) }
{
    Ok(Bytes::from_slice(alloc, bytes)?)
}

impl BytesExpr {
    /// The bytes of the expression.
    fn bytes(&self, alloc: Global, vars: &[Datum]) -> Result<Bytes, Memory>
        ensures { IfOk result (λ bytes. bytes ≡ text_of (text self.now) (store vars.now)) }
    {
        match self {
            BytesExpr::Lit(bytes) => bytes_from(alloc, bytes.as_slice()),
            BytesExpr::Var(var) => bytes_from(alloc, bytes_at(vars, *var)),
            BytesExpr::Fill { byte, count } => {
                let count = *count as usize;
                Ok(Bytes::from_vec(vec![in alloc; *byte; count]?))
            }
        }
    }
}

impl Value {
    /// Whether its value is no fault.
    pub fn has_value(&self, vars: &[Datum]) -> bool
        ensures { result ≡ is_some (datum_of (given self.now) (store vars.now)) }
    {
        match self {
            Value::Int(number) => number.value(vars).is_some(),
            Value::Bytes(_) => true,
        }
    }

    /// Its value, or None where it is a fault.
    pub fn datum(&self, alloc: Global, vars: &[Datum]) -> Result<Option<Datum>, Memory>
        ensures { IfOk result (λ datum. datum ≡ datum_of (given self.now) (store vars.now)) }
    {
        match self {
            Value::Int(number) => Ok(number.value(vars).map(Datum::Int)),
            Value::Bytes(bytes) => Ok(Some(Datum::Bytes(bytes.bytes(alloc, vars)?))),
        }
    }

    /// Its bytes, or None where it is a number.
    pub fn assigned_bytes(&self, alloc: Global, vars: &[Datum]) -> Result<Option<Datum>, Memory>
        ensures { IfOk result (λ datum. datum ≡ assigned_bytes (given self.now) (store vars.now)) }
    {
        match self {
            Value::Int(_) => Ok(None),
            Value::Bytes(bytes) => Ok(Some(Datum::Bytes(bytes.bytes(alloc, vars)?))),
        }
    }

    /// Its value, or None where it is a fault, where these are its bytes, which may be taken out.
    #[inline(always)]
    pub fn assigned(&self, bytes: &mut Option<Datum>, vars: &[Datum]) -> Option<Datum>
        ensures { bytes.old ≡ assigned_bytes (given self.now) (store vars.now) →
            result ≡ datum_of (given self.now) (store vars.now) }
    {
        match self {
            Value::Int(number) => number.value(vars).map(Datum::Int),
            Value::Bytes(_) => bytes.take(),
        }
    }
}
