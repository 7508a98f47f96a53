//! Numbers in decimal.
ghost use Rattle.std.specs.Prelude.{◌≡◌, ℕ, ◌<◌, ◌^◌, Option, Some, decimal};
ghost use Rattle.vc_trace.specs.EventOf.{IsGuard};
ghost use Rattle.vc_trace.specs.EventText.{guard_word};

use std::str;

/// The number that a word is in decimal, if it is one of 32 bits.
pub(crate) fn long(word: &[u8]) -> Option<u32>
    ensures { (n : ℕ) → n < 2 ^ 32 → word.now ≡ decimal n → result ≡ Some n }
{
    let Ok(text) = str::from_utf8(word) else {
        return None;
    };
    text.parse().ok()
}

/// The number that a word is in decimal, if it is one of 16 bits.
pub(crate) fn half(word: &[u8]) -> Option<u16>
    ensures { (n : ℕ) → n < 2 ^ 16 → word.now ≡ decimal n → result ≡ Some n }
{
    u16::try_from(long(word)?).ok()
}

/// The number that a word is in decimal, if it is one of 8 bits.
pub(crate) fn byte(word: &[u8]) -> Option<u8>
    ensures { (n : ℕ) → n < 2 ^ 8 → word.now ≡ decimal n → result ≡ Some n }
{
    u8::try_from(long(word)?).ok()
}

/// The place of a guard, or none for `-`.
pub(crate) fn guard(word: &[u8]) -> Option<Option<u16>>
    ensures { (guard : Option ℕ) → IsGuard guard →
        word.now ≡ guard_word guard → result ≡ Some guard }
{
    if word == b"-".as_slice() {
        return Some(None);
    }
    Some(Some(half(word)?))
}
