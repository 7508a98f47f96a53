//! What is said of a value that was found in the file.
ghost use Rattle.std.specs.Prelude.{◌≡◌, ◌++◌, OnOk};
ghost use Rattle.std.specs.List.{list_all};
ghost use Rattle.serde_json.specs.Data.{array, number as of_number, object, string};
ghost use Rattle.serde_json.specs.View.{items_view, members_view, number_view, view};
ghost use Rattle.vc_reader.specs.Reading.{count};
ghost use Rattle.vc_explain.specs.Found.{count_members, found_words, is_plain as is_plain_byte, is_shown as is_shown_text, quoted};

use serde_json::{Map, Number, Value};
use vc_packets::Memory;
use vc_text::push_number;

/// Whether the byte is a printable character of ASCII, other than a backtick.
fn is_plain(byte: u8) -> bool
    ensures { result ≡ is_plain_byte byte }
{
    32 <= byte && byte < 127 && byte != b'`'
}

fn are_plain(text: &[u8]) -> bool
    ensures { result ≡ list_all is_plain_byte text.now }
{
    text.iter().all(|byte| is_plain(*byte))
}

/// Whether a text is shown as it is: at most 40 such characters.
pub(crate) fn is_shown(text: &[u8]) -> bool
    ensures { result ≡ is_shown_text text.now }
{
    text.len() <= 40 && are_plain(text)
}

/// Adds a text between backticks, or else its length.
#[tactic(auto, using(std::proofs::Common::append_assoc), unfolding(crate::specs::Found::quoted))]
pub(crate) fn push_quoted(out: &mut Vec<u8>, text: &[u8]) -> Result<(), Memory>
    ensures { OnOk result (out.new.items ≡ out.old.items ++ quoted text.now) }
{
    if is_shown(text) {
        out.extend_from_slice(b"`")?;
        out.extend_from_slice(text)?;
        out.extend_from_slice(b"`")?;
    } else {
        out.extend_from_slice(b"of ")?;
        push_number(out, text.len() as u64)?;
        out.extend_from_slice(b" bytes")?;
    }
    Ok(())
}

/// Adds what a number is.
#[tactic(auto, using(std::proofs::Common::append_assoc), unfolding(crate::specs::Found::found_words))]
fn push_found_number(out: &mut Vec<u8>, number: &Number) -> Result<(), Memory>
    ensures { OnOk result (out.new.items ≡ out.old.items ++ found_words (of_number (number_view number.now))) }
{
    match number.as_u64() {
        Some(n) => {
            out.extend_from_slice(b"the number ")?;
            push_number(out, n)?;
        }
        None if number.is_f64() => {
            out.extend_from_slice(b"a number that is not whole, or past 64 bits")?
        }
        None => out.extend_from_slice(b"a number below 0")?,
    }
    Ok(())
}

#[tactic(auto, using(vc_reader::proofs::Parts::count_items_of))]
fn count_items(items: &Vec<Value>) -> usize
    ensures { result ≡ count (items_view items.now.items) }
{
    items.len()
}

#[tactic(auto, using(crate::proofs::Values::count_members_of))]
fn count_fields(members: &Map<String, Value>) -> usize
    ensures { result ≡ count_members (members_view members.now.entries) }
{
    members.len()
}

/// Adds what a list is.
#[tactic(auto, using(std::proofs::Common::append_assoc), unfolding(crate::specs::Found::found_words))]
fn push_found_list(out: &mut Vec<u8>, items: &Vec<Value>) -> Result<(), Memory>
    ensures { OnOk result
        (out.new.items ≡ out.old.items ++ found_words (array (items_view items.now.items))) }
{
    out.extend_from_slice(b"a list of length ")?;
    push_number(out, count_items(items) as u64)
}

/// Adds what an object is.
#[tactic(auto, using(std::proofs::Common::append_assoc), unfolding(crate::specs::Found::found_words))]
fn push_found_object(out: &mut Vec<u8>, members: &Map<String, Value>) -> Result<(), Memory>
    ensures { OnOk result (out.new.items
        ≡ out.old.items ++ found_words (object (members_view members.now.entries))) }
{
    let fields = count_fields(members) as u64;
    out.extend_from_slice(b"an object of size ")?;
    push_number(out, fields)?;
    Ok(())
}

/// Adds what a text is.
#[tactic(auto, using(std::proofs::Common::append_assoc), unfolding(crate::specs::Found::found_words))]
fn push_found_text(out: &mut Vec<u8>, text: &[u8]) -> Result<(), Memory>
    ensures { OnOk result (out.new.items ≡ out.old.items ++ found_words (string text.now)) }
{
    out.extend_from_slice(b"the text ")?;
    push_quoted(out, text)
}

/// Adds what a value is.
#[tactic(auto, unfolding(crate::specs::Found::found_words))]
pub(crate) fn push_found(out: &mut Vec<u8>, value: &Value) -> Result<(), Memory>
    ensures { OnOk result (out.new.items ≡ out.old.items ++ found_words (view value.now)) }
{
    match value {
        Value::Null => out.extend_from_slice(b"`null`")?,
        Value::Bool(true) => out.extend_from_slice(b"`true`")?,
        Value::Bool(false) => out.extend_from_slice(b"`false`")?,
        Value::Number(number) => push_found_number(out, number)?,
        Value::String(text) => push_found_text(out, text.as_str().as_bytes())?,
        Value::Array(items) => push_found_list(out, items)?,
        Value::Object(members) => push_found_object(out, members)?,
    }
    Ok(())
}
