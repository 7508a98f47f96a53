//! Readers, and what they have in common.
ghost use Rattle.std.specs.Prelude.{◌≡◌, ◌≤◌, ◌⊎◌, List, Result, Some, IfOk, [], option_map};
ghost use Rattle.serde_json.specs.Data.{Data};
ghost use Rattle.serde_json.specs.View.{view, items_view, members_view};
ghost use Rattle.vc_reader.specs.declared.fault.Fault.{Fault as FaultData};
ghost use Rattle.vc_reader.specs.declared.path.Step.{Step as StepData};
ghost use Rattle.vc_reader.specs.Private.Reading.{Gives, joins, beside as put_beside};
ghost use Rattle.vc_reader.specs.Reading.{under as under_step, field as field_of, cell as cell_of, read_text, read_number, read_array, read_list, list_field as list_field_of, count as count_of, items_in as items_in_list, row as row_of, is_word as is_word_of, has_only as has_only_words, read_object, has_field as has_field_of, only as only_field};

use crate::fault::{Fault, Stop, Why};
use crate::path::{Path, Step};
use crate::register::{Named, Register};
use crate::word::Word;
use serde_json::{Map, Value};
use sqlite_items::{Boxed, Items};
use std::alloc::Global;
use vc_packets::Memory;

/// A reader has a meaning: what each value means to it, or the value's first fault.
pub(crate) trait Reader {
    type Out: Drop;

    ghost meaning: { Self → Data → Result Self.Out FaultData };

    fn read(&self, alloc: Global, value: &Value) -> Result<Self::Out, Stop>
        ensures { Gives (λ x. x) result (meaning self.now (view value.now)) };
}

/// A reader of a list's items, each of which may be judged by those read before it.
pub(crate) trait ItemReader {
    type Out: Drop;

    ghost meaning: { Self → List Self.Out → Data → Result Self.Out FaultData };

    fn read(&self, alloc: Global, before: &[Self::Out], value: &Value) -> Result<Self::Out, Stop>
        ensures { Gives (λ x. x) result (meaning self.now before.now (view value.now)) };
}

/// A reader of a list's named items, each of which may be judged by those read before it.
pub(crate) trait NamedReader {
    type Out: Named + Drop;

    ghost meaning: { Self → List Self.Out → Data → Result Self.Out FaultData };

    fn read(
        &self,
        alloc: Global,
        before: &Register<Self::Out>,
        value: &Value,
    ) -> Result<Self::Out, Stop>
        ensures { Gives (λ x. x) result (meaning self.now before.now (view value.now)) };
}

/// The value at this place is at fault.
pub(crate) fn wrong(alloc: Global, why: Why) -> Stop
    ensures { result ≡ Stop.Fault (record { why = why; path = [] }) }
{
    Stop::Fault(Fault {
        why,
        path: Path::here(alloc),
    })
}

/// What is wrong at a path, or want of memory for the path.
fn fault_at(why: Why, path: Result<Path, Memory>) -> Stop
    ensures { (p : List StepData) →
        IfOk path (λ q. q ≡ p) →
        (result ≡ Stop.Memory) ⊎ (result ≡ Stop.Fault (record { why = why; path = p })) }
{
    match path {
        Ok(path) => Stop::Fault(Fault { why, path }),
        Err(Memory) => Stop::Memory,
    }
}

/// The same answer, seen from one step further up.
pub(crate) fn under<T: Drop>(step: Step, read: Result<T, Stop>) -> Result<T, Stop>
    ensures { (meant : Result T FaultData) →
        Gives (λ x. x) read meant →
        Gives (λ x. x) result (under_step step meant) }
{
    match read {
        Ok(x) => Ok(x),
        Err(Stop::Memory) => Err(Stop::Memory),
        Err(Stop::Fault(fault)) => {
            let Fault { why, path } = fault;
            Err(fault_at(why, path.under(step)))
        }
    }
}

/// What was read before, beside what was read next.
pub(crate) fn beside<A: Drop, B: Drop>(before: A, next: Result<B, Stop>) -> Result<(A, B), Stop>
    ensures { (meant : Result B FaultData) →
        Gives (λ x. x) next meant →
        Gives (λ x. x) result (put_beside before meant) }
{
    match next {
        Ok(next) => Ok((before, next)),
        Err(stop) => Err(stop),
    }
}

/// What was read, in a box of its own.
pub(crate) fn boxed<T: Drop>(alloc: Global, read: Result<T, Stop>) -> Result<Boxed<T>, Stop>
    ensures { (meant : Result T FaultData) →
        Gives (λ x. x) read meant →
        Gives (λ x. x) result meant }
{
    match read {
        Ok(x) => Ok(Boxed::new(alloc, x)?),
        Err(stop) => Err(stop),
    }
}

/// A field of an object.
pub(crate) fn field<R: Reader>(
    alloc: Global,
    word: Word,
    reader: &R,
    value: &Value,
) -> Result<R::Out, Stop>
    ensures { Gives (λ x. x) result (field_of word (R.meaning reader.now) (view value.now)) }
{
    let read = match value.get(word.text()) {
        Some(part) => reader.read(alloc, part),
        None => Err(wrong(alloc, Why::Missing)),
    };
    under(Step::Field(word), read)
}

/// An item of a list.
pub(crate) fn cell<R: Reader>(
    alloc: Global,
    index: usize,
    reader: &R,
    value: &Value,
) -> Result<R::Out, Stop>
    ensures { Gives (λ x. x) result (cell_of index (R.meaning reader.now) (view value.now)) }
{
    let read = match value.get(index) {
        Some(part) => reader.read(alloc, part),
        None => Err(wrong(alloc, Why::Missing)),
    };
    under(Step::Index(index), read)
}

/// A text.
pub(crate) fn text(alloc: Global, value: &Value) -> Result<&str, Stop>
    ensures { Gives (λ s. s.now) result (read_text (view value.now)) }
{
    match value {
        Value::String(text) => Ok(text.as_str()),
        _ => Err(wrong(alloc, Why::Kind)),
    }
}

/// A whole number from least to most.
pub(crate) fn number(alloc: Global, least: u64, most: u64, value: &Value) -> Result<u64, Stop>
    ensures gives { Gives (λ x. x) result (read_number least most (view value.now)) }
    ensures most { IfOk result (λ n. n ≤ most) }
{
    let Value::Number(number) = value else {
        return Err(wrong(alloc, Why::Kind));
    };
    match number.as_u64() {
        Some(n) => if least <= n && n <= most {
            Ok(n)
        } else {
            Err(wrong(alloc, Why::Range))
        },
        None => if number.is_f64() {
            Err(wrong(alloc, Why::Kind))
        } else {
            Err(wrong(alloc, Why::Range))
        },
    }
}

/// The items of a list.
pub(crate) fn array(alloc: Global, value: &Value) -> Result<&[Value], Stop>
    ensures { Gives (λ vs. items_view vs.now) result (read_array (view value.now)) }
{
    match value {
        Value::Array(items) => Ok(items.as_slice()),
        _ => Err(wrong(alloc, Why::Kind)),
    }
}

/// What was read of a list, with the item that was read after it.
pub(crate) fn with_item<T: Drop>(before: Items<T>, item: Result<T, Stop>) -> Result<Items<T>, Stop>
    ensures { (meant : Result T FaultData) →
        Gives (λ x. x) item meant →
        Gives (λ x. x) result (joins before meant) }
{
    let item = under(Step::Index(before.len()), item)?;
    let mut read = before;
    read.push(item)?;
    Ok(read)
}

/// A list.
pub(crate) fn list<R: ItemReader>(
    alloc: Global,
    reader: &R,
    value: &Value,
) -> Result<Items<R::Out>, Stop>
    ensures { Gives (λ x. x) result (read_list (R.meaning reader.now) (view value.now)) }
{
    let mut read = Items::new(alloc);
    for item in array(alloc, value)? {
        let one = reader.read(alloc, read.as_slice(), item);
        read = with_item(read, one)?;
    }
    Ok(read)
}

/// A list field, which may be absent.
pub(crate) fn list_field<R: ItemReader>(
    alloc: Global,
    word: Word,
    reader: &R,
    value: &Value,
) -> Result<Items<R::Out>, Stop>
    ensures { Gives (λ x. x) result (list_field_of word (R.meaning reader.now) (view value.now)) }
{
    let read = match value.get(word.text()) {
        Some(part) => list(alloc, reader, part),
        None => Ok(Items::new(alloc)),
    };
    under(Step::Field(word), read)
}

/// What was read of a list of named things, with the one that was read after it.
fn with_named<T: Named + Drop>(
    alloc: Global,
    before: Register<T>,
    item: Result<T, Stop>,
) -> Result<Register<T>, Stop>
    ensures { (meant : Result T FaultData) →
        Gives (λ x. x) item meant →
        Gives (λ x. x) result (joins before meant) }
{
    let item = under(Step::Index(before.len()), item)?;
    Ok(before.with(alloc, item)?)
}

/// A list of named things.
pub(crate) fn register<R: NamedReader>(
    alloc: Global,
    reader: &R,
    value: &Value,
) -> Result<Register<R::Out>, Stop>
    ensures { Gives (λ x. x) result (read_list (R.meaning reader.now) (view value.now)) }
{
    let mut read = Register::new(alloc);
    for item in array(alloc, value)? {
        let one = reader.read(alloc, &read, item);
        read = with_named(alloc, read, one)?;
    }
    Ok(read)
}

/// A list field of named things, which may be absent.
pub(crate) fn register_field<R: NamedReader>(
    alloc: Global,
    word: Word,
    reader: &R,
    value: &Value,
) -> Result<Register<R::Out>, Stop>
    ensures { Gives (λ x. x) result (list_field_of word (R.meaning reader.now) (view value.now)) }
{
    let read = match value.get(word.text()) {
        Some(part) => register(alloc, reader, part),
        None => Ok(Register::new(alloc)),
    };
    under(Step::Field(word), read)
}

#[tactic(auto, using(crate::proofs::Parts::count_items_of))]
fn count(items: &Vec<Value>) -> usize
    ensures { result ≡ count_of (items_view items.now.items) }
{
    items.len()
}

/// How many items a list has; 0 where the value is no list.
pub(crate) fn items_in(value: &Value) -> usize
    ensures { result ≡ items_in_list (view value.now) }
{
    match value {
        Value::Array(items) => count(items),
        _ => 0,
    }
}

/// A list of exactly so many items.
pub(crate) fn row(alloc: Global, wanted: usize, value: &Value) -> Result<(), Stop>
    ensures { Gives (λ x. x) result (row_of wanted (view value.now)) }
{
    match value {
        Value::Array(items) => if count(items) == wanted {
            Ok(())
        } else {
            Err(wrong(alloc, Why::Kind))
        },
        _ => Err(wrong(alloc, Why::Kind)),
    }
}

fn is_word(words: &[Word], key: &str) -> bool
    ensures { result ≡ is_word_of words.now key.now }
{
    words.iter().any(|word| word.text() == key)
}

fn has_only(words: &[Word], members: &Map<String, Value>) -> bool
    ensures { result ≡ has_only_words words.now (members_view members.now.entries) }
{
    for (key, _) in members.iter() {
        if !is_word(words, key.as_str()) {
            return false;
        }
    }
    true
}

/// An object that has no fields but these.
pub(crate) fn object(alloc: Global, words: &[Word], value: &Value) -> Result<(), Stop>
    ensures { Gives (λ x. x) result (read_object words.now (view value.now)) }
{
    match value {
        Value::Object(members) => if has_only(words, members) {
            Ok(())
        } else {
            Err(wrong(alloc, Why::Unknown))
        },
        _ => Err(wrong(alloc, Why::Kind)),
    }
}

/// Whether the value is an object that has the field.
pub(crate) fn has_field(word: Word, value: &Value) -> bool
    ensures { result ≡ has_field_of word (view value.now) }
{
    value.get(word.text()).is_some()
}

/// The one field of an object of one field.
pub(crate) fn only(value: &Value) -> Option<(&str, &Value)>
    ensures { option_map (λ p. (p.0.now, view p.1.now)) result ≡ only_field (view value.now) }
{
    let Value::Object(members) = value else {
        return None;
    };
    let mut members = members.iter();
    match members.next() {
        None => None,
        Some((key, member)) => match members.next() {
            None => Some((key.as_str(), member)),
            Some(_) => None,
        },
    }
}
