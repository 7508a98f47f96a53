//! What a process may be: how deep its expressions are, how long its messages, and which variables it names.
ghost use Rattle.std.specs.Prelude.{◌≡◌, slice_get};
ghost use Rattle.vc_process.specs.Limits.{exp_within, given_within, given_in_length, holds_kind, exp_fits, given_fits, given_kind};
ghost use Rattle.vc_process.specs.Terms.{exp, given};

use crate::bytes_expression::BytesExpr;
use crate::expression::Expr;
use crate::value::Value;
use crate::value_kind::ValueKind;

/// Whether there is such a variable and it holds this kind.
pub(crate) fn holds_kind(kinds: &[ValueKind], var: u8, kind: ValueKind) -> bool
    ensures { result ≡ holds_kind kinds.now var kind }
{
    match kinds.get(usize::from(var)) {
        Some(held) => *held == kind,
        None => false,
    }
}

/// What a variable holds, if there is such a variable.
pub(crate) fn kind_at(kinds: &[ValueKind], var: u8) -> Option<ValueKind>
    ensures { result ≡ slice_get kinds.now var }
{
    match kinds.get(usize::from(var)) {
        Some(held) => Some(*held),
        None => None,
    }
}

impl Expr {
    /// Whether the expression has at most this depth; a literal, a variable and a size have depth 1.
    #[tactic(auto, unfolding(crate::specs::Terms::exp))]
    pub fn is_within(&self, depth: u32) -> bool
        ensures { result ≡ exp_within (exp self.now) depth }
    {
        match self {
            Expr::Num(_) => depth > 0,
            Expr::Var(_) => depth > 0,
            Expr::Size(_) => depth > 0,
            Expr::Bin { left, right, .. } => {
                depth > 0 && left.get().is_within(depth - 1) && right.get().is_within(depth - 1)
            }
        }
    }

    /// Whether its variables are among these, and of the kinds that it wants.
    #[tactic(auto, unfolding(crate::specs::Terms::exp))]
    pub(crate) fn fits(&self, kinds: &[ValueKind]) -> bool
        ensures { result ≡ exp_fits (exp self.now) kinds.now }
    {
        match self {
            Expr::Num(_) => true,
            Expr::Var(var) => holds_kind(kinds, *var, ValueKind::Int),
            Expr::Size(var) => holds_kind(kinds, *var, ValueKind::Bytes),
            Expr::Bin { left, right, .. } => left.get().fits(kinds) && right.get().fits(kinds),
        }
    }
}

impl Value {
    /// Whether the expression has at most this depth.
    pub(crate) fn is_within(&self, depth: u32) -> bool
        ensures { result ≡ given_within (given self.now) depth }
    {
        match self {
            Value::Int(number) => number.is_within(depth),
            Value::Bytes(_) => depth > 0,
        }
    }

    /// Whether its message has at most 65,535 bytes, where that shows in the text.
    pub(crate) fn is_in_length(&self) -> bool
        ensures { result ≡ given_in_length (given self.now) }
    {
        match self {
            Value::Int(_) => true,
            Value::Bytes(BytesExpr::Lit(bytes)) => bytes.len() <= 65535,
            Value::Bytes(BytesExpr::Var(_)) => true,
            Value::Bytes(BytesExpr::Fill { count, .. }) => *count <= 65535,
        }
    }

    /// Whether its variables are among these, and of the kinds that it wants.
    pub(crate) fn fits(&self, kinds: &[ValueKind]) -> bool
        ensures { result ≡ given_fits (given self.now) kinds.now }
    {
        match self {
            Value::Int(number) => number.fits(kinds),
            Value::Bytes(BytesExpr::Lit(_)) => true,
            Value::Bytes(BytesExpr::Var(var)) => holds_kind(kinds, *var, ValueKind::Bytes),
            Value::Bytes(BytesExpr::Fill { .. }) => true,
        }
    }

    /// What it is worth.
    pub(crate) fn kind(&self) -> ValueKind
        ensures { result ≡ given_kind (given self.now) }
    {
        match self {
            Value::Int(_) => ValueKind::Int,
            Value::Bytes(_) => ValueKind::Bytes,
        }
    }
}
