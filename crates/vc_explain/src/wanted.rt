//! What is sought in a process.
ghost use Rattle.std.specs.Prelude.{◌≡◌, slice_get};
ghost use Rattle.vc_explain.specs.Uses.{change, expression, input, output, wants};
ghost use Rattle.vc_plan.specs.Check.{kind_fits as fits_kind};
ghost use Rattle.vc_process.specs.Limits.{given_kind};
ghost use Rattle.vc_process.specs.Terms.{as_test, exp, given};
ghost use Rattle.vc_process.specs.Usage.{in_exp, in_given, in_test};

use vc_process::{BytesExpr, Cond, Expr, Value, ValueKind};

/// What a node may do with a channel.
#[derive(Clone, Copy, Drop)]
pub(crate) struct Rights {
    /// The number of the channel.
    pub(crate) chan: usize,
    /// Whether the node is at its outputting end.
    pub(crate) may_output: bool,
    /// Whether the node is at its inputting end.
    pub(crate) may_input: bool,
    /// What its messages are.
    pub(crate) kind: ValueKind,
}

/// A use that is sought.
#[derive(Clone, Copy, Drop)]
pub(crate) enum Wanted {
    /// An output on the channel of this number.
    Output(usize),
    /// An input on it, a guard by it, or its stop.
    Input(usize),
    /// A change of the variable of this number.
    Change(usize),
    /// A change of it, or an expression with it.
    Use(usize),
    /// What a node does with a channel, and may not.
    Misuse(Rights),
}

/// What a value is.
fn kind_of(value: &Value) -> ValueKind
    ensures { result ≡ given_kind (given value.now) }
{
    match value {
        Value::Int(_) => ValueKind::Int,
        Value::Bytes(_) => ValueKind::Bytes,
    }
}

fn kind_fits(used: Option<ValueKind>, kind: ValueKind) -> bool
    ensures { result ≡ fits_kind used kind }
{
    match used {
        None => true,
        Some(used) => used == kind,
    }
}

/// What a variable holds, if there is such a variable.
pub(crate) fn kind_at(kinds: &[ValueKind], var: u8) -> Option<ValueKind>
    ensures { result ≡ slice_get kinds.now var }
{
    match kinds.get(usize::from(var)) {
        Some(held) => Some(*held),
        None => None,
    }
}

#[tactic(auto, unfolding(vc_process::specs::Terms::exp))]
fn is_in_expression(expression: &Expr, var: usize) -> bool
    ensures { result ≡ in_exp (exp expression.now) var }
{
    match expression {
        Expr::Num(_) => false,
        Expr::Var(other) => var == usize::from(*other),
        Expr::Size(other) => var == usize::from(*other),
        Expr::Bin { left, right, .. } => {
            is_in_expression(left.get(), var) || is_in_expression(right.get(), var)
        }
    }
}

#[tactic(auto, unfolding(vc_process::specs::Terms::as_test))]
fn is_in_condition(cond: &Cond, var: usize) -> bool
    ensures { result ≡ in_test (as_test cond.now) var }
{
    match cond {
        Cond::Always(_) => false,
        Cond::Cmp { left, right, .. } => {
            is_in_expression(left, var) || is_in_expression(right, var)
        }
        Cond::And(left, right) => {
            is_in_condition(left.get(), var) || is_in_condition(right.get(), var)
        }
        Cond::Or(left, right) => {
            is_in_condition(left.get(), var) || is_in_condition(right.get(), var)
        }
        Cond::Not(cond) => is_in_condition(cond.get(), var),
    }
}

fn is_in_value(value: &Value, var: usize) -> bool
    ensures { result ≡ in_given (given value.now) var }
{
    match value {
        Value::Int(number) => is_in_expression(number, var),
        Value::Bytes(BytesExpr::Lit(_)) => false,
        Value::Bytes(BytesExpr::Var(other)) => var == usize::from(*other),
        Value::Bytes(BytesExpr::Fill { .. }) => false,
    }
}

impl Wanted {
    /// Whether an output of this value is wanted.
    pub(crate) fn has_output(self, chan: u16, value: &Value) -> bool
        ensures { result ≡ wants self (output chan (given_kind (given value.now))) }
    {
        let chan = usize::from(chan);
        match self {
            Wanted::Output(wanted) => wanted == chan,
            Wanted::Misuse(rights) => {
                let is_right = rights.may_output && kind_fits(Some(kind_of(value)), rights.kind);
                rights.chan == chan && !is_right
            }
            _ => false,
        }
    }

    /// Whether an input into a variable of this kind is wanted, or a stop, which has no kind.
    pub(crate) fn has_input(self, chan: u16, kind: Option<ValueKind>) -> bool
        ensures { result ≡ wants self (input chan kind) }
    {
        let chan = usize::from(chan);
        match self {
            Wanted::Input(wanted) => wanted == chan,
            Wanted::Misuse(rights) => {
                let is_right = rights.may_input && kind_fits(kind, rights.kind);
                rights.chan == chan && !is_right
            }
            _ => false,
        }
    }

    /// Whether a change of this variable is wanted.
    pub(crate) fn has_change(self, var: u8) -> bool
        ensures { result ≡ wants self (change var) }
    {
        let var = usize::from(var);
        match self {
            Wanted::Change(wanted) => wanted == var,
            Wanted::Use(wanted) => wanted == var,
            _ => false,
        }
    }

    /// Whether a variable that is wanted is in the expression.
    pub(crate) fn has_expression(self, number: &Expr) -> bool
        ensures { result ≡ wants self (expression (in_exp (exp number.now))) }
    {
        match self {
            Wanted::Use(var) => is_in_expression(number, var),
            _ => false,
        }
    }

    /// Whether a variable that is wanted is in the condition.
    pub(crate) fn has_condition(self, cond: &Cond) -> bool
        ensures { result ≡ wants self (expression (in_test (as_test cond.now))) }
    {
        match self {
            Wanted::Use(var) => is_in_condition(cond, var),
            _ => false,
        }
    }

    /// Whether a variable that is wanted is in the value.
    pub(crate) fn has_value(self, value: &Value) -> bool
        ensures { result ≡ wants self (expression (in_given (given value.now))) }
    {
        match self {
            Wanted::Use(var) => is_in_value(value, var),
            _ => false,
        }
    }
}
