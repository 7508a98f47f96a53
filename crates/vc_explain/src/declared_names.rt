//! The names that a file declares.
ghost use Rattle.std.specs.Prelude.{◌≡◌, ◌++◌, ◌-◌, IfOk, OnOk, length, map, option_map, option_to_list, slice_get};
ghost use Rattle.serde_json.specs.View.{items_view, view};
ghost use Rattle.vc_explain.specs.DeclaredNames.{channel_kind as channel_kind_in, declared as declared_in, field_values as values_of_field, is_called as is_called_so, list_of, kind_by as kind_by_word, name_of, names as names_in, node_of, slot_for as slot_for_kind, slot_of, target as target_of, text_of, value_at as value_in, values as values_of, variable_kind as variable_kind_in, variable_of, variables, variables_in};
ghost use Rattle.vc_reader.specs.Faulty.{part_at};

use crate::slot::Slot;
use serde_json::Value;
use sqlite_items::Items;
use std::alloc::Global;
use vc_packets::Memory;
use vc_plan::Name;
use vc_reader::{Step, Word};

#[tactic(auto, using(crate::proofs::Values::list_of_items))]
fn items_of(items: &Vec<Value>) -> &[Value]
    ensures { map view result.now ≡ list_of (items_view items.now.items) }
{
    items.as_slice()
}

/// The values of a list; none of any other value.
fn values(value: Option<&Value>) -> &[Value]
    ensures { map view result.now ≡ values_of (option_map (λ v. view v.now) value.entry) }
{
    match value {
        Some(Value::Array(items)) => items_of(items),
        _ => &[],
    }
}

fn field_values(word: Word, value: &Value) -> &[Value]
    ensures { map view result.now ≡ values_of_field word (view value.now) }
{
    values(value.get(word.text()))
}

/// The text, if it is one.
fn text(value: Option<&Value>) -> Option<&str>
    ensures { option_map (λ s. s.now) result ≡ text_of (option_map (λ v. view v.now) value.entry) }
{
    match value {
        Some(Value::String(text)) => Some(text.as_str()),
        _ => None,
    }
}

/// The name of a thing: in the short form the text alone, else its field `name`.
fn name(thing: &Value) -> Option<&str>
    ensures { option_map (λ s. s.now) result ≡ name_of (view thing.now) }
{
    match text(Some(thing)) {
        Some(name) => Some(name),
        None => text(thing.get(Word::Name.text())),
    }
}

/// A variable is a list that begins with its name.
fn variable(thing: &Value) -> Option<&str>
    ensures { option_map (λ s. s.now) result ≡ variable_of (view thing.now) }
{
    text(thing.get(0usize))
}

/// Adds a name, if there is one.
fn push(alloc: Global, names: &mut Items<Name>, name: Option<&str>) -> Result<(), Memory>
    ensures { OnOk result
        (names.new ≡ names.old ++ option_to_list (option_map (λ s. s.now) name.entry)) }
{
    if let Some(name) = name {
        names.push(Items::from_slice(alloc, name.as_bytes())?)?;
    }
    Ok(())
}

/// Adds the names of the things in a list of the file.
fn push_names(
    alloc: Global,
    names: &mut Items<Name>,
    word: Word,
    file: &Value,
) -> Result<(), Memory>
    ensures { OnOk result (names.new ≡ names.old ++ names_in word (view file.now)) }
{
    let things = field_values(word, file);
    for thing in things {
        push(alloc, names, name(thing))?;
    }
    Ok(())
}

/// The node into which a path leads.
fn node<'a>(path: &[Step], file: &'a Value) -> Option<&'a Value>
    ensures { option_map (λ v. view v.now) result ≡ node_of path.now (view file.now) }
{
    match path {
        [Step::Field(word), Step::Index(n), ..] => file.get(word.text())?.get(*n),
        _ => None,
    }
}

fn variables_of(node: Option<&Value>) -> &[Value]
    ensures { map view result.now ≡ variables_in (option_map (λ v. view v.now) node.entry) }
{
    match node {
        Some(node) => field_values(Word::Vars, node),
        None => &[],
    }
}

/// Adds the variables of the node into which a path leads.
fn push_variables(
    alloc: Global,
    names: &mut Items<Name>,
    path: &[Step],
    file: &Value,
) -> Result<(), Memory>
    ensures { OnOk result (names.new ≡ names.old ++ variables path.now (view file.now)) }
{
    let things = variables_of(node(path, file));
    for thing in things {
        push(alloc, names, variable(thing))?;
    }
    Ok(())
}

/// The part of a value to which a step leads.
fn part(value: &Value, step: Step) -> Option<&Value>
    ensures { option_map (λ v. view v.now) result ≡ part_at step (view value.now) }
{
    match step {
        Step::Field(word) => value.get(word.text()),
        Step::Index(n) => value.get(n),
    }
}

/// The value to which a path leads.
pub(crate) fn value_at<'a>(path: &[Step], file: &'a Value) -> Option<&'a Value>
    ensures { option_map (λ v. view v.now) result ≡ value_in path.now (view file.now) }
{
    let mut value = file;
    for step in path {
        value = part(value, *step)?;
    }
    Some(value)
}

fn is_called(text: &str, name: Option<&str>) -> bool
    ensures { result ≡ is_called_so text.now (option_map (λ s. s.now) name.entry) }
{
    match name {
        Some(name) => text == name,
        None => false,
    }
}

/// The kind with which a channel of this name is declared.
fn channel_kind<'a>(called: &str, channels: &'a [Value]) -> Option<&'a str>
    ensures { option_map (λ s. s.now) result
        ≡ channel_kind_in called.now (map view channels.now) }
{
    for channel in channels {
        if is_called(called, name(channel)) {
            return text(channel.get(Word::Kind.text()));
        }
    }
    None
}

/// The kind with which a variable of this name is declared.
fn variable_kind<'a>(called: &str, variables: &'a [Value]) -> Option<&'a str>
    ensures { option_map (λ s. s.now) result
        ≡ variable_kind_in called.now (map view variables.now) }
{
    for thing in variables {
        if is_called(called, variable(thing)) {
            return text(thing.get(1usize));
        }
    }
    None
}

/// What a value is for: the text at the head of its list.
fn target<'a>(alloc: Global, path: &[Step], file: &'a Value) -> Result<Option<&'a str>, Memory>
    ensures { IfOk result (λ found. option_map (λ s. s.now) found
        ≡ target_of path.now (view file.now)) }
{
    let mut steps = Vec::new(alloc);
    steps.extend_from_slice(&path[..path.len().saturating_sub(1)])?;
    steps.push(Step::Index(0))?;
    Ok(text(value_at(steps.as_slice(), file)))
}

/// The kind of a channel that is output on, or of a variable that is assigned.
fn kind_by<'a>(text: &str, path: &[Step], file: &'a Value) -> Option<&'a str>
    ensures { option_map (λ s. s.now) result ≡ kind_by_word
        (slice_get path.now (length path.now - 2)) text.now path.now (view file.now) }
{
    match path.get(path.len().saturating_sub(2)) {
        Some(Step::Field(Word::Out)) => channel_kind(text, field_values(Word::Channels, file)),
        Some(Step::Field(Word::Set)) => variable_kind(text, variables_of(node(path, file))),
        _ => None,
    }
}

/// The slot for a value of this kind.
fn slot_for(kind: Option<&str>) -> Slot
    ensures { result ≡ slot_for_kind (option_map (λ s. s.now) kind.entry) }
{
    match kind {
        Some("int") => Slot::Expression,
        Some("bytes") => Slot::BytesValue,
        _ => Slot::Value,
    }
}

/// The slot to which a path leads in this file.
pub(crate) fn slot_in(alloc: Global, path: &[Step], file: &Value) -> Result<Slot, Memory>
    ensures { IfOk result (λ slot. slot ≡ slot_of path.now (view file.now)) }
{
    let slot = Slot::at(path);
    if slot != Slot::Value {
        return Ok(slot);
    }
    Ok(match target(alloc, path, file)? {
        Some(text) => slot_for(kind_by(text, path, file)),
        None => Slot::Value,
    })
}

/// The names that may be written in a slot.
pub(crate) fn declared(
    alloc: Global,
    slot: Slot,
    path: &[Step],
    file: &Value,
) -> Result<Items<Name>, Memory>
    ensures { IfOk result (λ names. names ≡ declared_in slot path.now (view file.now)) }
{
    let mut names = Items::new(alloc);
    match slot {
        Slot::Spot | Slot::SpotOrLink | Slot::SpotName => {
            push_names(alloc, &mut names, Word::Nodes, file)?;
            push_names(alloc, &mut names, Word::Switches, file)?;
        }
        Slot::Node => push_names(alloc, &mut names, Word::Nodes, file)?,
        Slot::Vlink | Slot::VlinkName => push_names(alloc, &mut names, Word::Vlinks, file)?,
        Slot::Channel | Slot::ChannelName => {
            push_names(alloc, &mut names, Word::Channels, file)?
        }
        Slot::Variable
        | Slot::VariableName
        | Slot::Expression
        | Slot::Operand
        | Slot::Value
        | Slot::BytesValue
        | Slot::Condition => push_variables(alloc, &mut names, path, file)?,
        _ => {}
    }
    Ok(names)
}
