//! Readers of conditions.
ghost use Rattle.serde_json.specs.View.{view};
ghost use Rattle.vc_reader.specs.Private.Reading.{Gives};
ghost use Rattle.vc_reader.specs.Reading.{cell as cell_of};
ghost use Rattle.vc_reader.specs.Conditions.{cond_word, plain_cond, read_comparison, read_both, read_either, read_not, worded_cond, cond_step, read_cond, whole_cond};

use crate::expression::{WholeExpr, head};
use crate::fault::{Stop, Why};
use crate::path::Step;
use crate::reader::{Reader, boxed, cell, row, text, under, wrong};
use crate::register::Register;
use serde_json::Value;
use sqlite_items::Boxed;
use std::alloc::Global;
use vc_plan::Variable;
use vc_process::{Cond, Rel};

/// The word at the head of a list that is a condition.
#[derive(Clone, Copy, Drop)]
pub(crate) enum CondWord {
    Compare(Rel),
    Both,
    Either,
    Neither,
}

#[derive(Drop)]
struct CondWordReader;

impl Reader for CondWordReader {
    type Out = CondWord;

    ghost meaning = { λ _. cond_word };

    fn read(&self, alloc: Global, value: &Value) -> Result<CondWord, Stop> {
        match text(alloc, value)? {
            "=" => Ok(CondWord::Compare(Rel::Eq)),
            "<>" => Ok(CondWord::Compare(Rel::Ne)),
            "<" => Ok(CondWord::Compare(Rel::Lt)),
            ">" => Ok(CondWord::Compare(Rel::Gt)),
            "<=" => Ok(CondWord::Compare(Rel::Le)),
            ">=" => Ok(CondWord::Compare(Rel::Ge)),
            "and" => Ok(CondWord::Both),
            "or" => Ok(CondWord::Either),
            "not" => Ok(CondWord::Neither),
            _ => Err(wrong(alloc, Why::Kind)),
        }
    }
}

/// TRUE or FALSE.
fn plain(alloc: Global, value: &Value) -> Result<Cond, Stop>
    ensures { Gives (λ x. x) result (plain_cond (view value.now)) }
{
    match value {
        Value::Bool(is_true) => Ok(Cond::Always(*is_true)),
        _ => Err(wrong(alloc, Why::Kind)),
    }
}

/// A condition over these variables.
#[derive(Drop)]
pub(crate) struct WholeCond<'a>(pub &'a Register<Variable>);

impl WholeCond<'_> {
    fn comparison(&self, alloc: Global, rel: Rel, value: &Value) -> Result<Cond, Stop>
        ensures { Gives (λ x. x) result (read_comparison self.now.0.now rel (view value.now)) }
    {
        row(alloc, 3, value)?;
        let left = cell(alloc, 1, &WholeExpr(self.0), value)?;
        let right = cell(alloc, 2, &WholeExpr(self.0), value)?;
        Ok(Cond::Cmp { rel, left, right })
    }

    /// A condition that nests no deeper than so many parts in one another.
    #[cycle(cond)]
    fn cond(&self, alloc: Global, depth: usize, value: &Value) -> Result<Cond, Stop>
        ensures { Gives (λ x. x) result (read_cond depth self.now.0.now (view value.now)) }
    {
        if depth == 0 {
            plain(alloc, value)
        } else {
            self.step(alloc, depth - 1, value)
        }
    }

    /// A condition whose parts nest no deeper.
    #[cycle(cond)]
    fn step(&self, alloc: Global, depth: usize, value: &Value) -> Result<Cond, Stop>
        ensures { Gives (λ x. x) result
            (cond_step (read_cond depth self.now.0.now) self.now.0.now (view value.now)) }
    {
        match value {
            Value::Array(_) => {
                let word = head(alloc, &CondWordReader, value)?;
                self.worded(alloc, depth, word, value)
            }
            _ => plain(alloc, value),
        }
    }

    /// A list of that word.
    #[cycle(cond)]
    fn worded(
        &self,
        alloc: Global,
        depth: usize,
        word: CondWord,
        value: &Value,
    ) -> Result<Cond, Stop>
        ensures { Gives (λ x. x) result
            (worded_cond (read_cond depth self.now.0.now) self.now.0.now word (view value.now)) }
    {
        match word {
            CondWord::Compare(rel) => self.comparison(alloc, rel, value),
            CondWord::Both => self.both(alloc, depth, value),
            CondWord::Either => self.either(alloc, depth, value),
            CondWord::Neither => self.not(alloc, depth, value),
        }
    }

    #[cycle(cond)]
    fn both(&self, alloc: Global, depth: usize, value: &Value) -> Result<Cond, Stop>
        ensures { Gives (λ x. x) result
            (read_both (read_cond depth self.now.0.now) (view value.now)) }
    {
        row(alloc, 3, value)?;
        let left = self.part(alloc, depth, 1, value)?;
        let right = self.part(alloc, depth, 2, value)?;
        Ok(Cond::And(left, right))
    }

    #[cycle(cond)]
    fn either(&self, alloc: Global, depth: usize, value: &Value) -> Result<Cond, Stop>
        ensures { Gives (λ x. x) result
            (read_either (read_cond depth self.now.0.now) (view value.now)) }
    {
        row(alloc, 3, value)?;
        let left = self.part(alloc, depth, 1, value)?;
        let right = self.part(alloc, depth, 2, value)?;
        Ok(Cond::Or(left, right))
    }

    #[cycle(cond)]
    fn not(&self, alloc: Global, depth: usize, value: &Value) -> Result<Cond, Stop>
        ensures { Gives (λ x. x) result
            (read_not (read_cond depth self.now.0.now) (view value.now)) }
    {
        row(alloc, 2, value)?;
        self.part(alloc, depth, 1, value).map(Cond::Not)
    }

    /// A part of a condition.
    #[cycle(cond)]
    fn part(
        &self,
        alloc: Global,
        depth: usize,
        index: usize,
        value: &Value,
    ) -> Result<Boxed<Cond>, Stop>
        ensures { Gives (λ x. x) result
            (cell_of index (read_cond depth self.now.0.now) (view value.now)) }
    {
        let read = match value.get(index) {
            Some(item) => self.cond(alloc, depth, item),
            None => Err(wrong(alloc, Why::Missing)),
        };
        boxed(alloc, under(Step::Index(index), read))
    }
}

impl Reader for WholeCond<'_> {
    type Out = Cond;

    ghost meaning = { λ r. whole_cond r.0.now };

    fn read(&self, alloc: Global, value: &Value) -> Result<Cond, Stop> {
        self.cond(alloc, 127, value)
    }
}
