//! The nearest of some names to one that is written.
ghost use Rattle.std.specs.Prelude.{◌≡◌, ◌++◌, IfOk, OnOk, option_map, length, take};
ghost use Rattle.vc_explain.specs.Nearest.{asked, distance as distance_of, is_near as is_near_to, known, listed, listed_after, meant, nearer as nearer_of, nearest as nearest_of, rest_counted, some_known, suggestion};

use crate::found::{is_shown, push_quoted};
use sqlite_items::Items;
use std::alloc::Global;
use strsim::generic_levenshtein;
use vc_packets::Memory;
use vc_plan::Name;
use vc_text::push_number;

/// How many letters have to be changed, written or left out.
fn distance(alloc: Global, text: &[u8], name: &Name) -> Result<usize, Memory>
    ensures { IfOk result (λ n. n ≡ distance_of text.now name.now) }
{
    Ok(generic_levenshtein(alloc, text, name.as_slice())?)
}

/// Whether two letters at most have to be, and not all of them.
fn is_near(alloc: Global, text: &[u8], name: &Name) -> Result<bool, Memory>
    ensures { IfOk result (λ yes. yes ≡ is_near_to text.now name.now) }
{
    let letters = distance(alloc, text, name)?;
    Ok(letters <= 2 && letters < text.len())
}

/// The nearer of the nearest name so far and another one.
fn nearer<'a>(
    alloc: Global,
    text: &[u8],
    near: Option<&'a Name>,
    name: &'a Name,
) -> Result<Option<&'a Name>, Memory>
    ensures { IfOk result (λ found. option_map (λ n. n.now) found
        ≡ nearer_of text.now (option_map (λ n. n.now) near.entry) name.now) }
{
    let is_nearer = match near {
        None => is_near(alloc, text, name)?,
        Some(near) => distance(alloc, text, name)? < distance(alloc, text, near)?,
    };
    Ok(if is_nearer { Some(name) } else { near })
}

/// The nearest name, if one is near to a text that can be shown.
fn nearest<'a>(alloc: Global, text: &[u8], names: &'a [Name]) -> Result<Option<&'a Name>, Memory>
    ensures { IfOk result (λ found. option_map (λ n. n.now) found
        ≡ nearest_of text.now names.now) }
{
    let mut near = None;
    if is_shown(text) {
        for name in names {
            near = nearer(alloc, text, near, name)?;
        }
    }
    Ok(near)
}

/// Adds names, with commas between them.
#[tactic(auto, using(std::proofs::Common::append_assoc))]
fn push_listed_after(out: &mut Vec<u8>, names: &[Name]) -> Result<(), Memory>
    ensures { OnOk result (out.new.items ≡ out.old.items ++ listed_after names.now) }
{
    for name in names {
        out.extend_from_slice(b", ")?;
        push_quoted(out, name.as_slice())?;
    }
    Ok(())
}

/// Adds names, with commas between them.
#[tactic(auto, using(std::proofs::Common::append_assoc))]
fn push_listed(out: &mut Vec<u8>, names: &[Name]) -> Result<(), Memory>
    ensures { OnOk result (out.new.items ≡ out.old.items ++ listed names.now) }
{
    if let Some((name, names)) = names.split_first() {
        push_quoted(out, name.as_slice())?;
        push_listed_after(out, names)?;
    }
    Ok(())
}

/// Adds how many names are left after eight of so many.
#[tactic(auto, using(std::proofs::Common::append_assoc))]
fn push_rest(out: &mut Vec<u8>, n: usize) -> Result<(), Memory>
    ensures { OnOk result (out.new.items ≡ out.old.items ++ rest_counted n) }
{
    if n > 8 {
        out.extend_from_slice(b" and ")?;
        push_number(out, (n - 8) as u64)?;
        out.extend_from_slice(b" more.")?;
    } else {
        out.extend_from_slice(b".")?;
    }
    Ok(())
}

fn first_eight(names: &[Name]) -> &[Name]
    ensures { result.now ≡ take 8 names.now }
{
    if names.len() > 8 { &names[..8] } else { names }
}

fn push_eight(out: &mut Vec<u8>, names: &[Name]) -> Result<(), Memory>
    ensures { OnOk result (out.new.items ≡ out.old.items ++ listed (take 8 names.now)) }
{
    push_listed(out, first_eight(names))
}

/// Adds the first eight names.
#[tactic(auto, using(std::proofs::Common::append_assoc), unfolding(crate::specs::Nearest::some_known))]
fn push_some_known(out: &mut Vec<u8>, names: &[Name]) -> Result<(), Memory>
    ensures { OnOk result (out.new.items ≡ out.old.items ++ some_known names.now) }
{
    out.extend_from_slice(b" There are: ")?;
    push_eight(out, names)?;
    push_rest(out, names.len())
}

/// Adds the first eight names that there are.
fn push_known(out: &mut Vec<u8>, names: &[Name]) -> Result<(), Memory>
    ensures { OnOk result (out.new.items ≡ out.old.items ++ known names.now) }
{
    match names {
        [] => out.extend_from_slice(b" There is none.")?,
        _ => push_some_known(out, names)?,
    }
    Ok(())
}

/// Asks whether a name was meant.
#[tactic(auto, using(std::proofs::Common::append_assoc), unfolding(crate::specs::Nearest::asked))]
fn push_asked(out: &mut Vec<u8>, name: &[u8]) -> Result<(), Memory>
    ensures { OnOk result (out.new.items ≡ out.old.items ++ asked name.now) }
{
    out.extend_from_slice(b" Did you mean ")?;
    push_quoted(out, name)?;
    out.extend_from_slice(b"?")?;
    Ok(())
}

/// Adds the name that might have been meant, or else the names.
fn push_meant(out: &mut Vec<u8>, near: Option<&Name>, names: &[Name]) -> Result<(), Memory>
    ensures { OnOk result (out.new.items
        ≡ out.old.items ++ meant (option_map (λ n. n.now) near.entry) names.now) }
{
    match near {
        Some(name) => push_asked(out, name.as_slice()),
        None => push_known(out, names),
    }
}

/// Adds what might have been meant by a text: the nearest of these names, or else the names.
#[tactic(auto, unfolding(crate::specs::Nearest::suggestion))]
pub(crate) fn push_suggestion(
    alloc: Global,
    out: &mut Vec<u8>,
    text: &[u8],
    names: &Items<Name>,
) -> Result<(), Memory>
    ensures { OnOk result (out.new.items ≡ out.old.items ++ suggestion text.now names.now) }
{
    let near = nearest(alloc, text, names.as_slice())?;
    push_meant(out, near, names.as_slice())
}
