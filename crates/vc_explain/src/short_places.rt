//! What a refusal names, in the short form of a network file.
ghost use Rattle.std.specs.Prelude.{◌≡◌, ◌++◌, IfOk, OnOk};
ghost use Rattle.std.specs.List.{flat_map};
ghost use Rattle.vc_label_text.specs.Labelled.{count as count_of};
ghost use Rattle.vc_explain.specs.ShortPlaces.{entry_from, in_short, number_in as number_of};

use crate::offender::{Offender, push_item, push_part};
use std::alloc::Global;
use vc_packets::Memory;
use vc_reader::{BareNetwork, BareWire, Word};

/// How many wires an entry asks for.
fn count(entry: &BareWire) -> usize
    ensures { result ≡ count_of entry.now }
{
    match entry {
        BareWire::Linked(_) => 1,
        BareWire::Unlinked { count, .. } => usize::from(*count),
    }
}

/// The entry that asks for wire n.
fn entry_of(entries: &[BareWire], n: usize) -> Option<usize>
    ensures { result ≡ entry_from 0 entries.now n }
{
    let mut left = n;
    for (k, entry) in entries.iter().enumerate() {
        let count = count(entry);
        if left < count {
            return Some(k);
        }
        left -= count;
    }
    None
}

/// The number that item n of a list of the whole file has in the short form, if it is there.
fn number_in(bare: &BareNetwork, list: Word, n: usize) -> Option<usize>
    ensures { result ≡ number_of bare.now list n }
{
    match list {
        Word::Wires => entry_of(bare.wires.as_slice(), n),
        Word::Channels => if n < bare.channels.len() {
            Some(n)
        } else {
            None
        },
        Word::Vlinks => None,
        _ => Some(n),
    }
}

/// What of an offender the short form has.
fn push_in_short(
    found: &mut Vec<Offender>,
    bare: &BareNetwork,
    offender: Offender,
) -> Result<(), Memory>
    ensures { OnOk result (found.new.items
        ≡ found.old.items ++ in_short bare.now offender) }
{
    match offender {
        Offender::All(list) => {
            if number_in(bare, list, 0).is_some() {
                found.push(Offender::All(list))?;
            }
            Ok(())
        }
        Offender::Item(list, n) => push_item(found, list, number_in(bare, list, n)),
        Offender::Part(list, n, field) => {
            push_part(found, list, field, number_in(bare, list, n))
        }
        Offender::Place(path) => {
            found.push(Offender::Place(path))?;
            Ok(())
        }
    }
}

/// What of these offenders the short form of a file has.
pub(crate) fn all_in_short(
    alloc: Global,
    bare: &BareNetwork,
    offenders: Vec<Offender>,
) -> Result<Vec<Offender>, Memory>
    ensures { IfOk result (λ found. found.items
        ≡ flat_map (in_short bare.now) offenders.items) }
{
    let mut found = Vec::new(alloc);
    for offender in offenders {
        push_in_short(&mut found, bare, offender)?;
    }
    Ok(found)
}
