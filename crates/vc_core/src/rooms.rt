//! By which links of each actor a way goes out.
ghost use Rattle.std.specs.Prelude.{◌≡◌, ◌↔◌, ◌≤◌, ◌<◌, ℕ, is_some, length};
ghost use Rattle.std.specs.Int.{bit_at};
ghost use Rattle.vc_core.specs.Private.Wiring.{AreRooms};
ghost use Rattle.vc_core.specs.Wiring.{out_at, IsWired};

use crate::wiring::LINKS;

// Whether a way goes out by a link.
fn is_wired(out: &[Option<u16>], actor: usize, link: u8) -> bool
    requires actor { actor < 65536 }
    requires link { link < 32 }
    ensures { result ≡ is_some (out_at out.now actor link) }
{
    match out.get(actor * LINKS + usize::from(link)) {
        Some(way) => way.is_some(),
        None => false,
    }
}

// A bit for each link of an actor by which a way goes out.
fn room_of(out: &[Option<u16>], actor: usize) -> u32
    requires { actor < 65536 }
    ensures { (link : ℕ) → link < 32 → (bit_at result link ≡ 1) ↔ IsWired out.now actor link }
{
    let mut room = 0;
    for link in 0..LINKS as u8 {
        if is_wired(out, actor, link) {
            room |= 1u32 << link;
        }
    }
    room
}

/// For each actor a bit for each link by which a way goes out.
pub(crate) fn rooms_of(out: &[Option<u16>]) -> [u32; 256]
    requires { length out.now ≤ 8192 }
    ensures { AreRooms out.now result }
{
    let mut rooms = [0; 256];
    for actor in 0..256 {
        rooms[actor] = room_of(out, actor);
    }
    rooms
}
