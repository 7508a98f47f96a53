//! Readers of names, and of texts that refer to them.
ghost use Rattle.std.specs.Prelude.{◌≡◌};
ghost use Rattle.std.specs.List.{list_all};
ghost use Rattle.serde_json.specs.View.{view};
ghost use Rattle.vc_reader.specs.Private.Reading.{Gives};
ghost use Rattle.vc_plan.specs.Limits.{is_letter as is_letter_byte, is_name_byte as is_name_part, begins_with_letter, is_name as is_name_text};
ghost use Rattle.vc_reader.specs.Names.{own_name as own_name_of, new_name, has_name, known_or_not, one_of as one_of_names};

use crate::fault::{Stop, Why};
use crate::reader::{Reader, text, wrong};
use crate::register::{Named, Register};
use serde_json::Value;
use sqlite_items::Items;
use std::alloc::Global;
use vc_plan::Name;

fn is_letter(c: u8) -> bool
    ensures { result ≡ is_letter_byte c }
{
    (65 <= c && c <= 90) || (97 <= c && c <= 122)
}

fn is_name_byte(c: u8) -> bool
    ensures { result ≡ is_name_part c }
{
    is_letter(c) || ((48 <= c && c <= 57) || (c == 95 || c == 45))
}

fn are_name_bytes(text: &[u8]) -> bool
    ensures { result ≡ list_all is_name_part text.now }
{
    text.iter().all(|c| is_name_byte(*c))
}

fn first_is_letter(text: &[u8]) -> bool
    ensures { result ≡ begins_with_letter text.now }
{
    match text {
        [] => false,
        [first, ..] => is_letter(*first),
    }
}

fn is_name(text: &[u8]) -> bool
    ensures { result ≡ is_name_text text.now }
{
    first_is_letter(text) && text.len() <= 16 && are_name_bytes(text)
}

/// A text that must be a name, and none that is taken.
pub(crate) fn own_name(alloc: Global, is_taken: bool, text: &[u8]) -> Result<Name, Stop>
    ensures { Gives (λ x. x) result (own_name_of is_taken text.now) }
{
    if is_name(text) && !is_taken {
        Ok(Items::from_slice(alloc, text)?)
    } else {
        Err(wrong(alloc, Why::Kind))
    }
}

/// A name that none of these has.
#[derive(Drop)]
pub(crate) struct NewName<'a, N: Named>(pub &'a Register<N>);

impl<N: Named + Drop> Reader for NewName<'_, N> {
    type Out = Name;

    ghost meaning = { λ r. new_name (has_name N.name_of r.0.now) };

    fn read(&self, alloc: Global, value: &Value) -> Result<Name, Stop> {
        let text = text(alloc, value)?.as_bytes();
        own_name(alloc, self.0.has(text), text)
    }
}

/// What something known is, or that it is unknown.
pub(crate) fn known<T: Drop>(alloc: Global, found: Option<T>) -> Result<T, Stop>
    ensures { Gives (λ x. x) result (known_or_not found) }
{
    match found {
        Some(x) => Ok(x),
        None => Err(wrong(alloc, Why::Unknown)),
    }
}

/// The one that has the name, after its number.
pub(crate) fn one_of<'a, N: Named + Drop>(
    alloc: Global,
    among: &'a Register<N>,
    value: &Value,
) -> Result<(usize, &'a N), Stop>
    ensures { Gives (λ p. (p.0, p.1.now)) result
        (one_of_names N.name_of among.now (view value.now)) }
{
    let text = text(alloc, value)?;
    match among.find(text.as_bytes()) {
        Some(found) => Ok(found),
        None => Err(wrong(alloc, Why::Unknown)),
    }
}
