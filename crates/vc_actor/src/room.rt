//! Which links have room, or something to do, as bits.
ghost use Rattle.std.specs.Prelude.{◌≡◌, ◌≢◌, ◌<◌, ◌↔◌, ℕ, IsTrue};
ghost use Rattle.std.specs.Int.{bit_at};

/// Whether the outgoing link has room: `room` has a bit for each that has.
pub fn has_room(room: u32, link: u8) -> bool
    requires { link < 32 }
    ensures { IsTrue result ↔ (bit_at room link ≡ 1) }
{
    room >> link & 1 == 1
}

/// The mask without a link's bit.
pub fn without(mask: u32, link: u8) -> u32
    requires { link < 32 }
    ensures gone { bit_at result link ≡ 0 }
    ensures others { (l : ℕ) → l < 32 → l ≢ link → bit_at result l ≡ bit_at mask l }
{
    mask & !(1u32 << link)
}
