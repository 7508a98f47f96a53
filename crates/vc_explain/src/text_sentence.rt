//! A plain sentence for a text that is refused: what was found, what the place takes, and what might have been meant.
ghost use Rattle.std.specs.Prelude.{◌≡◌, ◌++◌, ◌-◌, IfOk, OnOk, Some, length, map, option_map, slice_get};
ghost use Rattle.serde_json.specs.Data.{string};
ghost use Rattle.serde_json.specs.View.{members_view, view};
ghost use Rattle.vc_explain.specs.DeclaredNames.{declared as declared_in, slot_of, value_at as value_in};
ghost use Rattle.vc_explain.specs.Sentences.{field_sentence, found_sentence, found_text, gives_name as gives_name_in, is_among as is_among_names, is_twice as is_twice_among, kind_sentence, missing_text, mixed_fields, name_fault, name_sentence, no_json, nobody as nobody_in, nobody_text, strange_field as strange_in, strange_text, taken_text, text_sentence, too_long, unknown_sentence, word_of};
ghost use Rattle.vc_explain.specs.Slots.{takes};
ghost use Rattle.vc_reader.specs.Reading.{is_word as is_word_of};
ghost use Rattle.vc_reader.specs.Words.{word_text};

use crate::declared_names::{declared, slot_in, value_at};
use crate::explanation::first_steps;
use crate::found::{push_found, push_quoted};
use crate::nearest::push_suggestion;
use crate::slot::Slot;
use serde_json::{Map, Value};
use sqlite_items::Items;
use std::alloc::Global;
use vc_packets::Memory;
use vc_plan::Name;
use vc_reader::{Path, ReadRefused, Step, Word};
use vc_text::push_number;

/// A place of the file: what it takes, the names that may be written there, and the value that was found.
#[derive(Drop)]
struct Place<'a> {
    slot: Slot,
    names: Items<Name>,
    found: Option<&'a Value>,
}

fn push_phrase(out: &mut Vec<u8>, slot: Slot) -> Result<(), Memory>
    ensures { OnOk result (out.new.items ≡ out.old.items ++ takes slot) }
{
    out.extend_from_slice(slot.takes().as_bytes())?;
    Ok(())
}

/// Adds what the slot takes.
#[tactic(auto, using(std::proofs::Common::append_assoc), unfolding(crate::specs::Sentences::taken_text))]
fn push_taken(out: &mut Vec<u8>, slot: Slot) -> Result<(), Memory>
    ensures { OnOk result (out.new.items ≡ out.old.items ++ taken_text slot) }
{
    out.extend_from_slice(b"The place takes ")?;
    push_phrase(out, slot)?;
    out.extend_from_slice(b".")?;
    Ok(())
}

/// Adds what was found.
#[tactic(auto, using(std::proofs::Common::append_assoc), unfolding(crate::specs::Sentences::found_text))]
fn push_found_text(out: &mut Vec<u8>, value: &Value) -> Result<(), Memory>
    ensures { OnOk result (out.new.items ≡ out.old.items ++ found_text (view value.now)) }
{
    out.extend_from_slice(b"Found ")?;
    push_found(out, value)?;
    out.extend_from_slice(b". ")?;
    Ok(())
}

/// Adds what was found, and what the slot takes.
#[tactic(auto, using(std::proofs::Common::append_assoc))]
fn push_found_sentence(out: &mut Vec<u8>, slot: Slot, found: Option<&Value>) -> Result<(), Memory>
    ensures { OnOk result (out.new.items
        ≡ out.old.items ++ found_sentence slot (option_map (λ v. view v.now) found.entry)) }
{
    if let Some(value) = found {
        push_found_text(out, value)?;
    }
    push_taken(out, slot)
}

fn is_among(text: &[u8], names: &[Name]) -> bool
    ensures { result ≡ is_among_names text.now names.now }
{
    names.iter().any(|name| text == name.as_slice())
}

/// Whether a text is among these names more than once.
fn is_twice(text: &[u8], names: &[Name]) -> bool
    ensures { result ≡ is_twice_among text.now names.now }
{
    let mut names = names;
    while let Some((name, rest)) = names.split_first() {
        if text == name.as_slice() {
            return is_among(text, rest);
        }
        names = rest;
    }
    false
}

#[tactic(auto, using(std::proofs::Common::append_assoc), unfolding(crate::specs::Sentences::too_long))]
fn push_too_long(out: &mut Vec<u8>, length: u64) -> Result<(), Memory>
    ensures { OnOk result (out.new.items ≡ out.old.items ++ too_long length) }
{
    out.extend_from_slice(b" has ")?;
    push_number(out, length)?;
    out.extend_from_slice(b" characters, and 16 is the most. Write a shorter one.")?;
    Ok(())
}

fn push_name_fault(out: &mut Vec<u8>, text: &[u8], names: &[Name]) -> Result<(), Memory>
    ensures { OnOk result (out.new.items ≡ out.old.items ++ name_fault text.now names.now) }
{
    if text.len() > 16 {
        push_too_long(out, text.len() as u64)?;
    } else if is_twice(text, names) {
        out.extend_from_slice(b" is given already. Write another one.")?;
    } else {
        out.extend_from_slice(
            b" has another form: a name has letters, digits, `_` and `-`, and begins with a letter.",
        )?;
    }
    Ok(())
}

/// Adds what is wrong with a text that is no name, or is given already.
#[tactic(auto, using(std::proofs::Common::append_assoc), unfolding(crate::specs::Sentences::name_sentence))]
fn push_name_sentence(out: &mut Vec<u8>, text: &[u8], names: &[Name]) -> Result<(), Memory>
    ensures { OnOk result (out.new.items ≡ out.old.items ++ name_sentence text.now names.now) }
{
    out.extend_from_slice(b"The name ")?;
    push_quoted(out, text)?;
    push_name_fault(out, text, names)
}

/// Whether a name is given in the slot.
fn gives_name(slot: Slot) -> bool
    ensures { result ≡ gives_name_in slot }
{
    matches!(
        slot,
        Slot::SpotName | Slot::VariableName | Slot::VlinkName | Slot::ChannelName
    )
}

/// What the names of a slot are names of.
fn nobody(slot: Slot) -> &'static str
    ensures { result.now ≡ nobody_in slot }
{
    match slot {
        Slot::Spot | Slot::SpotOrLink => "No node or switch",
        Slot::Node => "No node",
        Slot::Vlink => "No virtual link",
        Slot::Channel => "No channel",
        _ => "No variable of the node",
    }
}

fn is_word(words: &[Word], key: &str) -> bool
    ensures { result ≡ is_word_of words.now key.now }
{
    words.iter().any(|word| word.text() == key)
}

/// The first field of an object that is none of these.
fn strange_field<'a>(words: &[Word], members: &'a Map<String, Value>) -> Option<&'a str>
    ensures { option_map (λ s. s.now) result
        ≡ strange_in words.now (members_view members.now.entries) }
{
    for (key, _) in members.iter() {
        if !is_word(words, key.as_str()) {
            return Some(key.as_str());
        }
    }
    None
}

/// Adds that a field is not known.
#[tactic(auto, using(std::proofs::Common::append_assoc), unfolding(crate::specs::Sentences::strange_text))]
fn push_strange(out: &mut Vec<u8>, key: &[u8]) -> Result<(), Memory>
    ensures { OnOk result (out.new.items ≡ out.old.items ++ strange_text key.now) }
{
    out.extend_from_slice(b"The field ")?;
    push_quoted(out, key)?;
    out.extend_from_slice(b" is not known here.")?;
    Ok(())
}

/// Adds that the fields of an object do not go together.
#[tactic(auto, using(std::proofs::Common::append_assoc), unfolding(crate::specs::Sentences::mixed_fields))]
fn push_mixed(out: &mut Vec<u8>, slot: Slot) -> Result<(), Memory>
    ensures { OnOk result (out.new.items ≡ out.old.items ++ mixed_fields slot) }
{
    out.extend_from_slice(b"The object has fields that do not go together. The place takes ")?;
    out.extend_from_slice(slot.takes().as_bytes())?;
    out.extend_from_slice(b".")?;
    Ok(())
}

/// Adds that nothing has a name.
#[tactic(auto, using(std::proofs::Common::append_assoc), unfolding(crate::specs::Sentences::nobody_text))]
fn push_nobody(out: &mut Vec<u8>, slot: Slot, text: &[u8]) -> Result<(), Memory>
    ensures { OnOk result (out.new.items ≡ out.old.items ++ nobody_text slot text.now) }
{
    out.extend_from_slice(nobody(slot).as_bytes())?;
    out.extend_from_slice(b" has the name ")?;
    push_quoted(out, text)?;
    out.extend_from_slice(b".")?;
    Ok(())
}

/// The texts of these words.
fn word_texts(alloc: Global, words: &[Word]) -> Result<Items<Name>, Memory>
    ensures { IfOk result (λ texts. texts ≡ map word_text words.now) }
{
    let mut texts = Items::new(alloc);
    for word in words {
        texts.push(Items::from_slice(alloc, word.text().as_bytes())?)?;
    }
    Ok(texts)
}

impl Place<'_> {
    ghost use Rattle.std.specs.Prelude.{option_map};
    ghost use Rattle.serde_json.specs.View.{view};

    /// Adds what is wrong with a value of the wrong kind.
    fn push_kind(&self, out: &mut Vec<u8>) -> Result<(), Memory>
        ensures { OnOk result (out.new.items ≡ out.old.items ++ kind_sentence self.now.slot
            self.now.names (option_map (λ v. view v.now) self.now.found)) }
    {
        match self.found {
            Some(Value::String(text)) if gives_name(self.slot) => {
                push_name_sentence(out, text.as_str().as_bytes(), self.names.as_slice())
            }
            found => push_found_sentence(out, self.slot, found),
        }
    }

    /// Adds that a field is not known, or that the fields of an object do not go together.
    #[tactic(auto, using(std::proofs::Common::append_assoc))]
    fn push_field(&self, alloc: Global, out: &mut Vec<u8>, key: Option<&str>) -> Result<(), Memory>
        ensures { OnOk result (out.new.items ≡ out.old.items
            ++ field_sentence self.now.slot (option_map (λ s. s.now) key.entry)) }
    {
        match key {
            Some(key) => {
                let known = word_texts(alloc, self.slot.fields())?;
                push_strange(out, key.as_bytes())?;
                push_suggestion(alloc, out, key.as_bytes(), &known)?;
            }
            None if self.slot == Slot::SwitchObject => {
                out.extend_from_slice(b"A file of version 1 has no `random`. Write version 2.")?;
            }
            None => push_mixed(out, self.slot)?,
        }
        Ok(())
    }

    /// Adds that nothing has a name, and what might have been meant.
    #[tactic(auto, using(std::proofs::Common::append_assoc))]
    fn push_name(&self, alloc: Global, out: &mut Vec<u8>, text: &[u8]) -> Result<(), Memory>
        ensures { OnOk result (out.new.items ≡ out.old.items
            ++ unknown_sentence self.now.slot self.now.names (Some (string text.now))) }
    {
        push_nobody(out, self.slot, text)?;
        push_suggestion(alloc, out, text, &self.names)
    }

    /// Adds what is not known: a field of an object, or a name.
    fn push_unknown(&self, alloc: Global, out: &mut Vec<u8>) -> Result<(), Memory>
        ensures { OnOk result (out.new.items ≡ out.old.items ++ unknown_sentence self.now.slot
            self.now.names (option_map (λ v. view v.now) self.now.found)) }
    {
        match self.found {
            Some(Value::Object(members)) => {
                let key = strange_field(self.slot.fields(), members);
                self.push_field(alloc, out, key)
            }
            Some(Value::String(text)) => self.push_name(alloc, out, text.as_str().as_bytes()),
            found => push_found_sentence(out, self.slot, found),
        }
    }
}

/// The place to which a path leads.
fn place_at<'a>(alloc: Global, path: &[Step], file: &'a Value) -> Result<Place<'a>, Memory>
    ensures slot { IfOk result (λ place. place.slot ≡ slot_of path.now (view file.now)) }
    ensures names { IfOk result (λ place. place.names
        ≡ declared_in (slot_of path.now (view file.now)) path.now (view file.now)) }
    ensures found { IfOk result (λ place. option_map (λ v. view v.now) place.found
        ≡ value_in path.now (view file.now)) }
{
    let slot = slot_in(alloc, path, file)?;
    Ok(Place {
        slot,
        names: declared(alloc, slot, path, file)?,
        found: value_at(path, file),
    })
}

/// Adds that a value is out of the range of its place.
fn push_range(alloc: Global, out: &mut Vec<u8>, path: &[Step], file: &Value) -> Result<(), Memory>
    ensures { OnOk result (out.new.items ≡ out.old.items
        ++ found_sentence (slot_of path.now (view file.now)) (value_in path.now (view file.now))) }
{
    push_found_sentence(out, slot_in(alloc, path, file)?, value_at(path, file))
}

/// The word of the field with which a path ends.
fn last_word(path: &[Step]) -> &'static str
    ensures { result.now ≡ word_of (slice_get path.now (length path.now - 1)) }
{
    match path.get(path.len().saturating_sub(1)) {
        Some(Step::Field(word)) => word.text(),
        _ => "",
    }
}

fn push_last_word(out: &mut Vec<u8>, path: &[Step]) -> Result<(), Memory>
    ensures { OnOk result (out.new.items
        ≡ out.old.items ++ word_of (slice_get path.now (length path.now - 1))) }
{
    out.extend_from_slice(last_word(path).as_bytes())?;
    Ok(())
}

/// Adds that a field is missing.
#[tactic(auto, using(std::proofs::Common::append_assoc), unfolding(crate::specs::Sentences::missing_text))]
fn push_missing(out: &mut Vec<u8>, path: &[Step]) -> Result<(), Memory>
    ensures { OnOk result (out.new.items ≡ out.old.items ++ missing_text path.now) }
{
    out.extend_from_slice(b"The object lacks the field `")?;
    push_last_word(out, path)?;
    out.extend_from_slice(b"`, which it must have.")?;
    Ok(())
}

fn no_json_sentence() -> &'static str
    ensures { result.now ≡ no_json }
{
    "The text is no JSON at the place below, or just before it. Look for a comma, a colon, a quote or a bracket that is missing or too many. A text that is empty, begins with a byte order mark, is no UTF-8 or nests more than 127 deep is none, too."
}

fn steps_of(alloc: Global, path: &Path) -> Result<Vec<Step>, Memory>
    ensures { IfOk result (λ steps. steps.items ≡ path.now) }
{
    first_steps(alloc, path, path.len())
}

/// Adds the sentence for a text that is refused, of this value.
pub(crate) fn push_text_sentence(
    alloc: Global,
    out: &mut Vec<u8>,
    file: &Value,
    refused: &ReadRefused,
) -> Result<(), Memory>
    ensures { OnOk result (out.new.items
        ≡ out.old.items ++ text_sentence (view file.now) refused.now) }
{
    match refused {
        ReadRefused::Missing(path) => {
            let path = steps_of(alloc, path)?;
            push_missing(out, path.as_slice())
        }
        ReadRefused::Kind(path) => {
            let path = steps_of(alloc, path)?;
            place_at(alloc, path.as_slice(), file)?.push_kind(out)
        }
        ReadRefused::Range(path) => {
            let path = steps_of(alloc, path)?;
            push_range(alloc, out, path.as_slice(), file)
        }
        ReadRefused::Unknown(path) => {
            let path = steps_of(alloc, path)?;
            place_at(alloc, path.as_slice(), file)?.push_unknown(alloc, out)
        }
        ReadRefused::Json => {
            out.extend_from_slice(no_json_sentence().as_bytes())?;
            Ok(())
        }
        ReadRefused::Memory => Ok(()),
    }
}
