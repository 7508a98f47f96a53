//! What meets inside the node.
ghost use Rattle.std.specs.Prelude.{◌≡◌, ◌≤◌, ◌-◌, ◌++◌, ◌∷◌, [], IfSome, None, OnOk, drop, length, take, true};
ghost use Rattle.std.specs.List.Sorted.{IsNonDecreasingBy};
ghost use Rattle.vc_occam.specs.declared.moves.Move.TheVariants.{Inner};
ghost use Rattle.vc_occam.specs.First.{joined as as_joined, meetings};
ghost use Rattle.vc_occam.specs.Private.Frames.{is_outside as stays_outside};
ghost use Rattle.vc_occam.specs.Private.MoveSites.{partner as its_partner};
ghost use Rattle.vc_occam.specs.Private.Receivers.{HasReceivers, key};
ghost use Rattle.vc_process.specs.Usage.{among};

use crate::inner_channels::InnerChannels;
use crate::moves::Move;
use crate::receivers::{by_channel, first_on, key_of};
use sqlite_items::Items;
use std::alloc::Global;
use vc_packets::Memory;

/// Of so many moves or fewer each is held against each output. To put them in order of channel first takes a tenth more instructions
/// where 12 outputs are beside an ALT of 12 guards, a fiftieth more where there are 16 of each, and a fifth less where there are 24.
const FEW: usize = 32;

/// Whether the move needs no channel inside the node.
pub(crate) fn is_outside(made: &Move, inside: &InnerChannels) -> bool
    ensures { result ≡ stays_outside (among inside.now) made.now }
{
    match made {
        Move::Offer { chan, .. } => !inside.contains(*chan),
        Move::Want { chan, .. } => !inside.contains(*chan),
        Move::Choose { chan, .. } => !inside.contains(*chan),
        _ => true,
    }
}

/// The input, or the guard of an ALT, that an output meets.
pub(crate) fn partner(receiver: u16, guard: Option<u16>, chan: u16) -> Move
    ensures { result ≡ its_partner receiver guard chan }
{
    match guard {
        Some(guard) => Move::Choose {
            site: receiver,
            guard,
            chan,
        },
        None => Move::Want {
            site: receiver,
            chan,
        },
    }
}

/// Adds the meeting of the output at this site with the move, if they meet.
fn push_meeting(found: &mut Items<Move>, sender: u16, chan: u16, made: &Move) -> Result<(), Memory>
    ensures { OnOk result (found.new ≡ found.old ++ meetings sender chan (made.now ∷ [])) }
{
    let (receiver, guard, on) = match made {
        Move::Want { site, chan } => (*site, None, *chan),
        Move::Choose { site, guard, chan } => (*site, Some(*guard), *chan),
        _ => return Ok(()),
    };
    if chan == on {
        found.push(Move::Inner {
            sender,
            receiver,
            guard,
            chan,
        })?;
    }
    Ok(())
}

/// Adds what the output at this site meets among so many moves at the front of the list.
fn push_meetings(
    found: &mut Items<Move>,
    sender: u16,
    chan: u16,
    count: usize,
) -> Result<(), Memory>
    requires { count ≤ length found.old }
    ensures { OnOk result (found.new ≡ found.old ++ meetings sender chan (take count found.old)) }
{
    for place in 0..count {
        let made = found.as_slice()[place];
        push_meeting(found, sender, chan, &made)?;
    }
    Ok(())
}

/// Adds what the output at this site meets among moves whose inputs and guards are in order of channel.
#[inline(never)]
fn push_met(found: &mut Items<Move>, sender: u16, chan: u16, sorted: &[Move]) -> Result<(), Memory>
    requires { IsNonDecreasingBy key sorted.now }
    ensures { OnOk result (found.new ≡ found.old ++ meetings sender chan sorted.now) }
{
    for place in first_on(chan, sorted)..sorted.len() {
        if key_of(&sorted[place]) != u32::from(chan) + 1 {
            return Ok(());
        }
        push_meeting(found, sender, chan, &sorted[place])?;
    }
    Ok(())
}

/// Adds the move, if it needs no channel inside the node, or what an output meets there, among so many moves at the front of the
/// list, or among the same moves sorted.
fn push_joined(
    found: &mut Items<Move>,
    made: &Move,
    count: usize,
    sorted: Option<&[Move]>,
    inside: &InnerChannels,
) -> Result<(), Memory>
    requires count { count ≤ length found.old }
    requires sorted { IfSome sorted (λ moves. HasReceivers moves.now (take count found.old)) }
    ensures { OnOk result
        (found.new ≡
        found.old ++ as_joined (among inside.now) (take count found.old) (made.now ∷ [])) }
{
    if is_outside(made, inside) {
        found.push(*made)?;
        return Ok(());
    }
    if let Move::Offer { site, chan } = made {
        match sorted {
            Some(sorted) => push_met(found, *site, *chan, sorted)?,
            None => push_meetings(found, *site, *chan, count)?,
        }
    }
    Ok(())
}

/// Adds, of so many moves at the front of the list, those that need no channel inside the node, and what meets there: each output with
/// each input or guard on its channel, among these moves or the same ones sorted.
fn push_each_joined(
    found: &mut Items<Move>,
    count: usize,
    sorted: Option<&[Move]>,
    inside: &InnerChannels,
) -> Result<(), Memory>
    requires count { count ≤ length found.old }
    requires sorted { IfSome sorted (λ moves. HasReceivers moves.now (take count found.old)) }
    ensures { OnOk result
        (found.new ≡
        found.old ++
        as_joined (among inside.now) (take count found.old) (take count found.old)) }
{
    for place in 0..count {
        let made = found.as_slice()[place];
        push_joined(found, &made, count, sorted, inside)?;
    }
    Ok(())
}

/// Adds what so many moves at the front of the list come to. Few are held each against each output, and many are sorted first.
fn push_all_joined(
    found: &mut Items<Move>,
    alloc: Global,
    count: usize,
    inside: &InnerChannels,
) -> Result<(), Memory>
    requires { count ≤ length found.old }
    ensures { OnOk result
        (found.new ≡
        found.old ++
        as_joined (among inside.now) (take count found.old) (take count found.old)) }
{
    if count <= FEW {
        return push_each_joined(found, count, None, inside);
    }
    let sorted = by_channel(alloc, &found.as_slice()[..count])?;
    push_each_joined(found, count, Some(&sorted), inside)
}

/// Moves all but so many moves of the list to its front.
fn move_front(found: &mut Items<Move>, count: usize)
    requires { count ≤ length found.old }
    ensures { (length found.new ≡ length found.old) ×
        (take (length found.old - count) found.new ≡ drop count found.old) }
{
    for place in 0..found.len() - count {
        let made = found.as_slice()[place + count];
        found.set(place, made);
    }
}

/// Takes so many moves out of the end of the list.
fn drop_end(found: &mut Items<Move>, count: usize)
    requires { count ≤ length found.old }
    ensures { found.new ≡ take (length found.old - count) found.old }
{
    for _done in 0..count {
        found.pop();
    }
}

/// Takes so many moves out of the front of the list.
fn drop_front(found: &mut Items<Move>, count: usize)
    requires { count ≤ length found.old }
    ensures { found.new ≡ drop count found.old }
{
    move_front(found, count);
    drop_end(found, count);
}

/// Where an output and an input meet on a channel inside the node, what they come to.
fn meet_alone(
    sender: u16,
    chan: u16,
    receiver: u16,
    on: u16,
    inside: &InnerChannels,
) -> Option<Move>
    ensures { IfSome result
        (λ met.
        (chan ≡ on) ×
        (among inside.now chan ≡ true) ×
        (met ≡ Inner sender receiver None chan)) }
{
    if chan == on && inside.contains(chan) {
        return Some(Move::Inner {
            sender,
            receiver,
            guard: None,
            chan,
        });
    }
    None
}

/// The meeting that two moves come to, if one is an output and the other the input that it meets inside the node.
pub(crate) fn meeting_of(first: &Move, second: &Move, inside: &InnerChannels) -> Option<Move>
    ensures { IfSome result
        (λ met.
        as_joined (among inside.now) (first.now ∷ second.now ∷ [])
        (first.now ∷ second.now ∷ []) ≡
        met ∷ []) }
{
    match *first {
        Move::Offer { site: sender, chan } => match *second {
            Move::Want { site, chan: on } => meet_alone(sender, chan, site, on, inside),
            _ => None,
        },
        Move::Want { site, chan: on } => match *second {
            Move::Offer { site: sender, chan } => meet_alone(sender, chan, site, on, inside),
            _ => None,
        },
        _ => None,
    }
}

/// The meeting that the moves come to, if there are two of them, an output and the input that it meets inside the node.
fn only_meeting(found: &[Move], inside: &InnerChannels) -> Option<Move>
    ensures { IfSome result (λ met.
        as_joined (among inside.now) found.now found.now ≡ met ∷ []) }
{
    if found.len() == 2 {
        return meeting_of(&found[0], &found[1], inside);
    }
    None
}

/// In place of the moves that each site can begin with, puts those that need no channel inside the node, and what meets there. The
/// list's room serves for both.
pub(crate) fn join(
    found: &mut Items<Move>,
    alloc: Global,
    inside: &InnerChannels,
) -> Result<(), Memory>
    ensures { OnOk result (found.new ≡ as_joined (among inside.now) found.old found.old) }
{
    if let Some(met) = only_meeting(found.as_slice(), inside) {
        clear(found);
        found.push(met)?;
        return Ok(());
    }
    let count = found.len();
    push_all_joined(found, alloc, count, inside)?;
    drop_front(found, count);
    Ok(())
}

/// Takes all moves out of a list, whose room stays.
pub(crate) fn clear(found: &mut Items<Move>)
    ensures { found.new ≡ [] }
{
    while !found.is_empty() {
        found.pop();
    }
}
