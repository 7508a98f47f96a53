//! Numbers, guards and channels among the words of a line.
ghost use Rattle.std.specs.Prelude.{decimal};
ghost use Rattle.vc_plan.specs.declared.plan.Plan.{Plan};
ghost use Rattle.vc_plan.specs.Names.{actor_name, channel_name};
ghost use Rattle.vc_trace.specs.Private.EventOf.{Finds};
ghost use Rattle.vc_trace.specs.EventOf.{IsActor, IsByte, IsChannel, IsGuard, IsHalf, IsLong};
ghost use Rattle.vc_trace.specs.Private.Names.{AreNamesOf};
ghost use Rattle.vc_trace.specs.EventText.{guard_word};

use crate::names::Names;
use crate::number::{byte, guard, half, long};
use crate::words::Words;

/// A number of 32 bits.
pub(crate) fn long_in(words: &mut Words<'_>) -> Option<u32>
    ensures { Finds IsLong decimal words.old.rest.now words.new.rest.now result }
{
    long(words.next())
}

/// A number of 16 bits.
pub(crate) fn half_in(words: &mut Words<'_>) -> Option<u16>
    ensures { Finds IsHalf decimal words.old.rest.now words.new.rest.now result }
{
    half(words.next())
}

/// A number of 8 bits.
pub(crate) fn byte_in(words: &mut Words<'_>) -> Option<u8>
    ensures { Finds IsByte decimal words.old.rest.now words.new.rest.now result }
{
    byte(words.next())
}

/// The place of a guard, or none.
pub(crate) fn guard_in(words: &mut Words<'_>) -> Option<Option<u16>>
    ensures { Finds IsGuard guard_word words.old.rest.now words.new.rest.now result }
{
    guard(words.next())
}

/// A channel of the plan.
pub(crate) fn channel_in(names: &Names<'_>, words: &mut Words<'_>) -> Option<u16>
    ensures { (p : Plan) → AreNamesOf p names.now →
        Finds (IsChannel p) (channel_name p) words.old.rest.now words.new.rest.now result }
{
    names.channel(words.next())
}

/// A node or a switch of the plan.
pub(crate) fn actor_in(names: &Names<'_>, words: &mut Words<'_>) -> Option<u8>
    ensures { (p : Plan) → AreNamesOf p names.now →
        Finds (IsActor p) (actor_name p) words.old.rest.now words.new.rest.now result }
{
    names.actor(words.next())
}
