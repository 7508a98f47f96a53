//! Reading an event from its line.
ghost use Rattle.std.specs.Prelude.{◌≡◌, ◌∷◌, ◌++◌, [], ℕ, List, Option, Some, codes, decimal, option_map};
ghost use Rattle.vc_occam.specs.declared.moves.Move.{Move as Made};
ghost use Rattle.vc_actor.specs.declared.act.Act.{Act as Done};
ghost use Rattle.vc_core.specs.declared.event.Event.{Event as Happening};
ghost use Rattle.vc_plan.specs.declared.plan.Plan.{Plan};
ghost use Rattle.vc_plan.specs.Names.{channel_name};
ghost use Rattle.vc_waits.specs.Waits.{newline};
ghost use Rattle.vc_trace.specs.EventOf.{IsActOf, IsByte, IsChannel, IsEventOf, IsGuard, IsHalf, IsLong, IsMoveOf};
ghost use Rattle.vc_trace.specs.Private.Names.{AreNamesOf};
ghost use Rattle.vc_trace.specs.EventText.{act_words, event_line, guard_word, move_words, spaced};

use crate::fields::{actor_in, byte_in, channel_in, guard_in, half_in, long_in};
use crate::move_verb::MoveVerb;
use crate::names::Names;
use crate::verb::Verb;
use crate::words::Words;
use vc_core::{Act, Event};
use vc_occam::Move;

/// A site and a channel.
fn place_in(names: &Names<'_>, words: &mut Words<'_>) -> Option<(u16, u16)>
    ensures { (p : Plan) → AreNamesOf p names.now →
        (site chan : ℕ) → IsHalf site → IsChannel p chan →
        words.old.rest.now ≡ spaced (decimal site ∷ channel_name p chan ∷ []) →
        result ≡ Some (site, chan) }
{
    let site = half_in(words)?;
    let chan = channel_in(names, words)?;
    Some((site, chan))
}

/// An ALT that takes a guard.
fn choice_in(names: &Names<'_>, words: &mut Words<'_>) -> Option<Move>
    ensures { (p : Plan) → AreNamesOf p names.now → (site guard chan : ℕ) →
        IsHalf site → IsHalf guard → IsChannel p chan →
        words.old.rest.now ≡
        spaced (decimal site ∷ decimal guard ∷ channel_name p chan ∷ []) →
        result ≡ Some (Move.Choose site guard chan) }
{
    let site = half_in(words)?;
    let (guard, chan) = place_in(names, words)?;
    Some(Move::Choose { site, guard, chan })
}

/// An output that meets an input or a guard.
fn meeting_in(names: &Names<'_>, words: &mut Words<'_>) -> Option<Move>
    ensures { (p : Plan) → AreNamesOf p names.now →
        (sender receiver chan : ℕ) (guard : Option ℕ) →
        IsHalf sender → IsHalf receiver → IsGuard guard → IsChannel p chan →
        words.old.rest.now ≡ spaced
        (decimal sender ∷ decimal receiver ∷ guard_word guard ∷ channel_name p chan ∷ []) →
        result ≡ Some (Move.Inner sender receiver guard chan) }
{
    let sender = half_in(words)?;
    let receiver = half_in(words)?;
    let guard = guard_in(words)?;
    let chan = channel_in(names, words)?;
    Some(Move::Inner {
        sender,
        receiver,
        guard,
        chan,
    })
}

/// The move of a process whose words are these, if there is one.
fn move_of(names: &Names<'_>, words: &mut Words<'_>) -> Option<Move>
    ensures { (p : Plan) → AreNamesOf p names.now → (made : Made) → IsMoveOf p made →
        words.old.rest.now ≡ spaced (move_words p made) → result ≡ Some made }
{
    match MoveVerb::of(words.next())? {
        MoveVerb::Offer => {
            let (site, chan) = place_in(names, words)?;
            Some(Move::Offer { site, chan })
        }
        MoveVerb::Want => {
            let (site, chan) = place_in(names, words)?;
            Some(Move::Want { site, chan })
        }
        MoveVerb::Choose => choice_in(names, words),
        MoveVerb::Stopch => {
            let (site, chan) = place_in(names, words)?;
            Some(Move::Stopch { site, chan })
        }
        MoveVerb::Inner => meeting_in(names, words),
        MoveVerb::Quiet => {
            let site = half_in(words)?;
            Some(Move::Quiet { site })
        }
    }
}

/// A token that is taken.
fn take_in(words: &mut Words<'_>) -> Option<Act>
    ensures { (link word : ℕ) → IsByte link → IsLong word →
        words.old.rest.now ≡ spaced (decimal link ∷ decimal word ∷ []) →
        result ≡ Some (Act.Take link word) }
{
    let link = byte_in(words)?;
    let word = long_in(words)?;
    Some(Act::Take { link, word })
}

/// A packet that is bound to an output.
fn route_in(words: &mut Words<'_>) -> Option<Act>
    ensures { (input output : ℕ) → IsByte input → IsByte output →
        words.old.rest.now ≡ spaced (decimal input ∷ decimal output ∷ []) →
        result ≡ Some (Act.Route input output) }
{
    let input = byte_in(words)?;
    let output = byte_in(words)?;
    Some(Act::Route { input, output })
}

/// The act whose words are these, if there is one.
fn act_of(names: &Names<'_>, words: &mut Words<'_>) -> Option<Act>
    ensures { (p : Plan) → AreNamesOf p names.now → (done : Done) → IsActOf p done →
        words.old.rest.now ≡ spaced (act_words p done) → result ≡ Some done }
{
    match Verb::of(words.next())? {
        Verb::Proc => move_of(names, words).map(Act::Proc),
        Verb::Take => take_in(words),
        Verb::Put => {
            let link = byte_in(words)?;
            Some(Act::Put { link })
        }
        Verb::Route => route_in(words),
        Verb::Fct => {
            let link = byte_in(words)?;
            Some(Act::Fct { link })
        }
        Verb::Pass => {
            let link = byte_in(words)?;
            Some(Act::Pass { link })
        }
    }
}

/// The words of a line after the word `event`, if it is a line that begins so.
fn words_of(line: &[u8]) -> Option<&[u8]>
    ensures { (words : List ℕ) → codes "event" ++ words ++ newline ≡ line.now →
        option_map (λ found. found.now) result ≡ Some words }
{
    line.strip_suffix(b"\n".as_slice())?
        .strip_prefix(b"event".as_slice())
}

/// The event whose line this is, if there is one. A line that is no event's may give an event too.
pub(crate) fn event_of(names: &Names<'_>, line: &[u8]) -> Option<Event>
    ensures { (p : Plan) → AreNamesOf p names.now →
        (event : Happening) → IsEventOf p event →
        event_line p event ≡ line.now → result ≡ Some event }
{
    let mut words = Words {
        rest: words_of(line)?,
    };
    let actor = actor_in(names, &mut words)?;
    let act = act_of(names, &mut words)?;
    Some(Event { actor, act })
}
