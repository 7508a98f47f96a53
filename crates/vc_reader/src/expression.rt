//! Readers of expressions of whole numbers.
ghost use Rattle.serde_json.specs.View.{view};
ghost use Rattle.vc_reader.specs.Private.Reading.{Gives};
ghost use Rattle.vc_reader.specs.Reading.{cell as cell_of};
ghost use Rattle.vc_reader.specs.Bytes.{read_variable};
ghost use Rattle.vc_reader.specs.Expressions.{read_int, read_leaf, expr_word, head as head_of, read_size, read_operation, worded_expr, expr_step, read_expr, whole_expr};

use crate::bytes::VariableOf;
use crate::fault::{Stop, Why};
use crate::path::Step;
use crate::reader::{Reader, boxed, cell, items_in, row, text, under, wrong};
use crate::register::Register;
use serde_json::Value;
use sqlite_items::Boxed;
use std::alloc::Global;
use vc_plan::Variable;
use vc_process::{Expr, Op, ValueKind};

/// A whole number of 64 bits with sign.
fn int(alloc: Global, value: &Value) -> Result<i64, Stop>
    ensures { Gives (λ x. x) result (read_int (view value.now)) }
{
    let Value::Number(number) = value else {
        return Err(wrong(alloc, Why::Kind));
    };
    match number.as_i64() {
        Some(n) => Ok(n),
        None => if number.is_f64() {
            Err(wrong(alloc, Why::Kind))
        } else {
            Err(wrong(alloc, Why::Range))
        },
    }
}

/// The word at the head of a list that is an expression.
#[derive(Clone, Copy, Drop)]
pub(crate) enum ExprWord {
    SizeOf,
    Operator(Op),
}

#[derive(Drop)]
struct ExprWordReader;

impl Reader for ExprWordReader {
    type Out = ExprWord;

    ghost meaning = { λ _. expr_word };

    fn read(&self, alloc: Global, value: &Value) -> Result<ExprWord, Stop> {
        match text(alloc, value)? {
            "size" => Ok(ExprWord::SizeOf),
            "+" => Ok(ExprWord::Operator(Op::Add)),
            "-" => Ok(ExprWord::Operator(Op::Sub)),
            "*" => Ok(ExprWord::Operator(Op::Mul)),
            "/" => Ok(ExprWord::Operator(Op::Div)),
            "\\" => Ok(ExprWord::Operator(Op::Rem)),
            _ => Err(wrong(alloc, Why::Kind)),
        }
    }
}

/// The word at the head of a list that has one.
pub(crate) fn head<R: Reader>(alloc: Global, reader: &R, value: &Value) -> Result<R::Out, Stop>
    ensures { Gives (λ x. x) result (head_of (R.meaning reader.now) (view value.now)) }
{
    if items_in(value) == 0 {
        Err(wrong(alloc, Why::Kind))
    } else {
        cell(alloc, 0, reader, value)
    }
}

/// An expression over these variables.
#[derive(Drop)]
pub(crate) struct WholeExpr<'a>(pub &'a Register<Variable>);

impl WholeExpr<'_> {
    fn variable(&self, alloc: Global, value: &Value) -> Result<u8, Stop>
        ensures { Gives (λ x. x) result
            (read_variable ValueKind.Int self.now.0.now (view value.now)) }
    {
        let variable = VariableOf {
            kind: ValueKind::Int,
            vars: self.0,
        };
        variable.read(alloc, value)
    }

    /// A literal or a variable.
    fn leaf(&self, alloc: Global, value: &Value) -> Result<Expr, Stop>
        ensures { Gives (λ x. x) result (read_leaf self.now.0.now (view value.now)) }
    {
        match value {
            Value::Number(_) => int(alloc, value).map(Expr::Num),
            Value::String(_) => self.variable(alloc, value).map(Expr::Var),
            _ => Err(wrong(alloc, Why::Kind)),
        }
    }

    fn size(&self, alloc: Global, value: &Value) -> Result<Expr, Stop>
        ensures { Gives (λ x. x) result (read_size self.now.0.now (view value.now)) }
    {
        let variable = VariableOf {
            kind: ValueKind::Bytes,
            vars: self.0,
        };
        row(alloc, 2, value)?;
        cell(alloc, 1, &variable, value).map(Expr::Size)
    }

    /// An expression that nests no deeper than so many parts in one another.
    #[cycle(expr)]
    fn expr(&self, alloc: Global, depth: usize, value: &Value) -> Result<Expr, Stop>
        ensures { Gives (λ x. x) result (read_expr depth self.now.0.now (view value.now)) }
    {
        if depth == 0 {
            self.leaf(alloc, value)
        } else {
            self.step(alloc, depth - 1, value)
        }
    }

    /// An expression whose parts nest no deeper.
    #[cycle(expr)]
    fn step(&self, alloc: Global, depth: usize, value: &Value) -> Result<Expr, Stop>
        ensures { Gives (λ x. x) result
            (expr_step (read_expr depth self.now.0.now) self.now.0.now (view value.now)) }
    {
        match value {
            Value::Array(_) => {
                let word = head(alloc, &ExprWordReader, value)?;
                self.worded(alloc, depth, word, value)
            }
            _ => self.leaf(alloc, value),
        }
    }

    /// A list of that word.
    #[cycle(expr)]
    fn worded(
        &self,
        alloc: Global,
        depth: usize,
        word: ExprWord,
        value: &Value,
    ) -> Result<Expr, Stop>
        ensures { Gives (λ x. x) result
            (worded_expr (read_expr depth self.now.0.now) self.now.0.now word (view value.now)) }
    {
        match word {
            ExprWord::SizeOf => self.size(alloc, value),
            ExprWord::Operator(op) => self.operation(alloc, depth, op, value),
        }
    }

    #[cycle(expr)]
    fn operation(&self, alloc: Global, depth: usize, op: Op, value: &Value) -> Result<Expr, Stop>
        ensures { Gives (λ x. x) result
            (read_operation (read_expr depth self.now.0.now) op (view value.now)) }
    {
        row(alloc, 3, value)?;
        let left = self.part(alloc, depth, 1, value)?;
        let right = self.part(alloc, depth, 2, value)?;
        Ok(Expr::Bin { op, left, right })
    }

    /// An operand.
    #[cycle(expr)]
    fn part(
        &self,
        alloc: Global,
        depth: usize,
        index: usize,
        value: &Value,
    ) -> Result<Boxed<Expr>, Stop>
        ensures { Gives (λ x. x) result
            (cell_of index (read_expr depth self.now.0.now) (view value.now)) }
    {
        let read = match value.get(index) {
            Some(item) => self.expr(alloc, depth, item),
            None => Err(wrong(alloc, Why::Missing)),
        };
        boxed(alloc, under(Step::Index(index), read))
    }
}

impl Reader for WholeExpr<'_> {
    type Out = Expr;

    ghost meaning = { λ r. whole_expr r.0.now };

    fn read(&self, alloc: Global, value: &Value) -> Result<Expr, Stop> {
        self.expr(alloc, 127, value)
    }
}
