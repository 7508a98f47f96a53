//! What was copied, in a box or after others.
ghost use Rattle.std.specs.Prelude.{◌≡◌, [], ◌∷◌, ◌++◌, IfOk, Ok, OnOk};
ghost use Rattle.std.specs.Result.{IsOkAnd};

use sqlite_items::{Boxed, Items};
use std::alloc::Global;
use vc_packets::Memory;

/// What was copied, in a box of its own, unless its copy failed.
pub(crate) fn boxed<T: Drop>(alloc: Global, copied: Result<T, Memory>) -> Result<Boxed<T>, Memory>
    ensures { IfOk result (λ copy. copied ≡ Ok copy) }
{
    Ok(Boxed::new(alloc, copied?)?)
}

/// Adds what was copied, unless its copy failed.
pub(crate) fn push_copied<T: Drop>(
    copies: &mut Items<T>,
    copied: Result<T, Memory>,
) -> Result<(), Memory>
    ensures { OnOk result (IsOkAnd copied (λ copy. copies.new ≡ copies.old ++ copy ∷ [])) }
{
    copies.push(copied?)?;
    Ok(())
}
