//! Masks of links, a bit for each of the 32.
ghost use Rattle.std.specs.Prelude.{◌≡◌, ◌<◌, ◌↔◌, ℕ, IsTrue, MatchOption};
ghost use Rattle.std.specs.Int.{bit_at};
ghost use Rattle.vc_switch.specs.Private.Requests.{HasMore};
ghost use Rattle.vc_switch.specs.Masks.{IsLowest};
ghost use Rattle.vc_switch.specs.Private.Ready.{Tells};

/// The mask with one link's bit as given, and the other bits as before.
pub(crate) fn told(mask: u32, link: u8, is: bool) -> u32
    requires { link < 32 }
    ensures { Tells (IsTrue is) link mask result }
{
    if is {
        mask | 1u32 << link
    } else {
        mask & !(1u32 << link)
    }
}

/// The bits of a mask that another has not.
pub(crate) fn minus(mask: u32, other: u32) -> u32
    ensures { (l : ℕ) →
        (bit_at result l ≡ 1) ↔ ((bit_at mask l ≡ 1) × (bit_at other l ≡ 0)) }
{
    mask & !other
}

/// Whether a mask has a bit that another has not.
pub(crate) fn has_more(mask: u32, other: u32) -> bool
    ensures { IsTrue result ↔ HasMore mask other }
{
    minus(mask, other) != 0
}

/// The least link that has its bit in a mask; none where the mask is 0.
pub fn lowest(mask: u32) -> Option<u8>
    ensures { MatchOption result ((l : ℕ) → bit_at mask l ≡ 0)
        (λ link. (link < 32) × IsLowest mask link) }
{
    if mask == 0 {
        return None;
    }
    Some(mask.trailing_zeros() as u8)
}
