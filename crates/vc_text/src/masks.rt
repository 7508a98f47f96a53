//! Masks of the first 64 actors of a network, a bit for each.
ghost use Rattle.std.specs.Prelude.{◌≡◌, ◌≢◌, ◌<◌, ◌+◌, ◌-◌, ◌^◌, ℕ, IfSome, MatchOption};
ghost use Rattle.std.specs.Int.{bit_at};

/// The least actor of one mask that is among those of another.
pub(crate) fn least_among(mask: u64, among: u64) -> Option<u8>
    ensures { MatchOption result
        ((k : ℕ) → k < 64 → bit_at among k ≡ 1 → bit_at mask k ≡ 0)
        (λ next. (next < 64) × (bit_at among next ≡ 1)
        × ((k : ℕ) → k < next → bit_at among k ≡ 1 → bit_at mask k ≡ 0)) }
{
    lowest(mask & among)
}

/// A bit for each of the first 64 actors that come after one.
pub(crate) fn after(actor: u8) -> u64
    requires { actor < 64 }
    ensures { result ≡ 2 ^ 64 - 2 ^ (actor + 1) }
{
    u64::MAX << actor << 1
}

/// The mask without an actor's bit.
pub(crate) fn without(mask: u64, actor: u8) -> u64
    requires { actor < 64 }
    ensures it { bit_at result actor ≡ 0 }
    ensures others { (k : ℕ) → k < 64 → k ≢ actor → bit_at result k ≡ bit_at mask k }
{
    mask & !(1u64 << actor)
}

/// The actor of a mask that has one alone.
pub(crate) fn only(mask: u64) -> Option<u8>
    ensures { IfSome result (λ actor. (actor < 64) × (bit_at mask actor ≡ 1)) }
{
    if mask & mask.wrapping_sub(1) != 0 {
        return None;
    }
    lowest(mask)
}

// The least bit of a mask.
fn lowest(mask: u64) -> Option<u8>
    ensures { MatchOption result
        ((k : ℕ) → k < 64 → bit_at mask k ≡ 0)
        (λ least. (least < 64) × (bit_at mask least ≡ 1)
        × ((k : ℕ) → k < least → bit_at mask k ≡ 0)) }
{
    if mask == 0 {
        return None;
    }
    Some(mask.trailing_zeros() as u8)
}
