//! Readers of variables and of expressions of bytes.
ghost use Rattle.std.specs.Prelude.{ℕ, ◌<◌, IfOk, Result};
ghost use Rattle.serde_json.specs.View.{view};
ghost use Rattle.vc_reader.specs.declared.fault.Fault.{Fault as FaultData};
ghost use Rattle.vc_reader.specs.Private.Reading.{Gives};
ghost use Rattle.vc_reader.specs.Bytes.{of_kind as number_of_kind, read_variable, no_longer as no_longer_than, hex_digit as hex_digit_of, hex_bytes as hex_bytes_of, read_hex, read_literal, read_fill, formed_bytes as formed, read_bytes};
ghost use Rattle.vc_reader.specs.Private.Bytes.{hex_pair as hex_pair_of, pushed};

use crate::fault::{Stop, Why};
use crate::name::one_of;
use crate::path::Step;
use crate::reader::{Reader, cell, only, row, text, under, wrong};
use crate::register::Register;
use crate::scalar::{Byte, MessageLen};
use crate::word::Word;
use serde_json::Value;
use sqlite_items::Items;
use std::alloc::Global;
use vc_plan::Variable;
use vc_process::{BytesExpr, ValueKind};

fn of_kind(alloc: Global, kind: ValueKind, number: usize, var: &Variable) -> Result<u8, Stop>
    ensures { Gives (λ x. x) result (number_of_kind kind (number, var.now)) }
{
    if kind == var.kind {
        Ok(number.min(255) as u8)
    } else {
        Err(wrong(alloc, Why::Kind))
    }
}

/// A variable of a kind, by its name.
#[derive(Drop)]
pub(crate) struct VariableOf<'a> {
    pub kind: ValueKind,
    pub vars: &'a Register<Variable>,
}

impl Reader for VariableOf<'_> {
    type Out = u8;

    ghost meaning = { λ r. read_variable r.kind r.vars.now };

    fn read(&self, alloc: Global, value: &Value) -> Result<u8, Stop> {
        let (number, var) = one_of(alloc, self.vars, value)?;
        of_kind(alloc, self.kind, number, var)
    }
}

fn no_longer(alloc: Global, bytes: Items<u8>) -> Result<Items<u8>, Stop>
    ensures { Gives (λ x. x) result (no_longer_than bytes) }
{
    let fits = bytes.len() <= 65535;
    if fits {
        Ok(bytes)
    } else {
        Err(wrong(alloc, Why::Range))
    }
}

fn hex_digit(alloc: Global, c: u8) -> Result<u8, Stop>
    ensures gives { Gives (λ x. x) result (hex_digit_of c) }
    ensures small { IfOk result (λ n. n < 16) }
{
    if 48 <= c && c <= 57 {
        Ok(c - 48)
    } else if 97 <= c && c <= 102 {
        Ok(c - 87)
    } else {
        Err(wrong(alloc, Why::Kind))
    }
}

/// The byte of two digits.
fn hex_pair(alloc: Global, a: u8, b: u8) -> Result<u8, Stop>
    ensures { Gives (λ x. x) result (hex_pair_of a b) }
{
    let high = hex_digit(alloc, a)?;
    let low = hex_digit(alloc, b)?;
    Ok(16 * high + low)
}

/// The bytes before, with the one that was read after them.
fn with_byte(before: Items<u8>, byte: Result<u8, Stop>) -> Result<Items<u8>, Stop>
    ensures { (meant : Result ℕ FaultData) →
        Gives (λ x. x) byte meant →
        Gives (λ x. x) result (pushed before meant) }
{
    let byte = byte?;
    let mut bytes = before;
    bytes.push(byte)?;
    Ok(bytes)
}

#[tactic(auto, using(crate::proofs::Parts::with_front_none))]
fn hex_bytes(alloc: Global, text: &[u8]) -> Result<Items<u8>, Stop>
    ensures { Gives (λ x. x) result (hex_bytes_of text.now) }
{
    let mut bytes = Items::new(alloc);
    let mut rest = text;
    while let Some((a, tail)) = rest.split_first() {
        let Some((b, more)) = tail.split_first() else {
            return Err(wrong(alloc, Why::Kind));
        };
        match with_byte(bytes, hex_pair(alloc, *a, *b)) {
            Ok(longer) => bytes = longer,
            Err(stop) => return Err(stop),
        }
        rest = more;
    }
    Ok(bytes)
}

fn hex(alloc: Global, value: &Value) -> Result<BytesExpr, Stop>
    ensures { Gives (λ x. x) result (read_hex (view value.now)) }
{
    let text = text(alloc, value)?;
    let bytes = hex_bytes(alloc, text.as_bytes())?;
    let bytes = no_longer(alloc, bytes)?;
    Ok(BytesExpr::Lit(bytes))
}

fn literal(alloc: Global, value: &Value) -> Result<BytesExpr, Stop>
    ensures { Gives (λ x. x) result (read_literal (view value.now)) }
{
    let text = text(alloc, value)?;
    let bytes = Items::from_slice(alloc, text.as_bytes())?;
    let bytes = no_longer(alloc, bytes)?;
    Ok(BytesExpr::Lit(bytes))
}

fn fill(alloc: Global, value: &Value) -> Result<BytesExpr, Stop>
    ensures { Gives (λ x. x) result (read_fill (view value.now)) }
{
    row(alloc, 2, value)?;
    let byte = cell(alloc, 0, &Byte, value)?;
    let count = cell(alloc, 1, &MessageLen, value)?;
    Ok(BytesExpr::Fill { byte, count })
}

fn formed_bytes(alloc: Global, form: &str, value: &Value) -> Result<BytesExpr, Stop>
    ensures { Gives (λ x. x) result (formed form.now (view value.now)) }
{
    match form {
        "hex" => under(Step::Field(Word::Hex), hex(alloc, value)),
        "text" => under(Step::Field(Word::Text), literal(alloc, value)),
        "fill" => under(Step::Field(Word::Fill), fill(alloc, value)),
        _ => Err(wrong(alloc, Why::Unknown)),
    }
}

/// An expression of bytes over these variables.
pub(crate) fn bytes(
    alloc: Global,
    vars: &Register<Variable>,
    value: &Value,
) -> Result<BytesExpr, Stop>
    ensures { Gives (λ x. x) result (read_bytes vars.now (view value.now)) }
{
    if let Value::String(_) = value {
        let variable = VariableOf {
            kind: ValueKind::Bytes,
            vars,
        };
        Ok(BytesExpr::Var(variable.read(alloc, value)?))
    } else {
        match only(value) {
            Some((form, part)) => formed_bytes(alloc, form, part),
            None => Err(wrong(alloc, Why::Kind)),
        }
    }
}
