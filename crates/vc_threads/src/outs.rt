//! An actor's ends of the rings that go out.
ghost use Rattle.std.specs.Prelude.{◌≡◌, ℕ, ◌<◌, ◌≤◌, ◌++◌, [], ◌∷◌, length, IsTrue};
ghost use Rattle.std.specs.Int.{bit_at};
ghost use Rattle.std.specs.List.{All, AllZip, HoldsAt};
ghost use Rattle.rtrb.specs.Ring.{sent, known_free, SameProducer};
ghost use Rattle.vc_threads.specs.Wires.{Distinct, IsAmong, OutLooked, out_links};
ghost use Rattle.vc_threads.specs.Private.Rooms.{IsFree, HasRoom, HaveRoom, HasPut};

use crate::link::{Out, Stamped};

/// An actor's ends of the rings that go out, each with its link, and the links of those that are known to have room.
#[derive(Drop)]
pub(crate) struct Outs {
    pub(crate) ends: Vec<(u8, Out)>,
    // the links, a bit for each
    links: u32,
    // those whose rings are known to have room
    room: u32,
    ghost known: { HaveRoom room ends.items },
}

// Whether a link's ring has room.
fn has_room(out: &mut (u8, Out)) -> bool
    ensures looked { OutLooked out.old out.new }
    ensures room { IsTrue result → 0 < known_free out.new.1 }
{
    let (_, producer) = out;
    !producer.is_full()
}

// The outgoing links whose rings have room, a bit for each.
fn room_of(outs: &mut [(u8, Out)]) -> u32
    requires { All (λ o. o.0 < 32) outs.old }
    ensures looked { AllZip OutLooked outs.old outs.new }
    ensures room { HaveRoom result outs.new }
{
    let mut room = 0u32;
    for k in 0..outs.len() {
        let out = &mut outs[k];
        let link = out.0;
        if has_room(out) {
            room |= 1u32 << link;
        }
    }
    room
}

// The outgoing links, a bit for each.
fn links_of(outs: &[(u8, Out)]) -> u32
    requires { All (λ o. o.0 < 32) outs.now }
{
    let mut links = 0u32;
    for k in 0..outs.len() {
        links |= 1u32 << outs[k].0;
    }
    links
}

// The place of the link whose ring has room.
fn find_out(outs: &[(u8, Out)], link: u8) -> usize
    requires { HasRoom outs.now link }
    ensures within { result < length outs.now }
    ensures free { HoldsAt (IsFree link) outs.now result }
{
    for k in 0..outs.len() {
        let (of, producer) = &outs[k];
        if *of == link && producer.cached_slots() > 0 {
            return k;
        }
    }
    unreachable!()
}

// Puts an item on a ring with room. The answer is how many slots of it are still known to be free.
fn put_item(end: &mut (u8, Out), item: Stamped) -> usize
    requires room { 0 < known_free end.old.1 }
    requires stamp { 1 ≤ item.at }
    ensures link { end.new.0 ≡ end.old.0 }
    ensures ring { SameProducer end.old.1 end.new.1 }
    ensures sent { sent end.new.1 ≡ sent end.old.1 ++ item ∷ [] }
    ensures free { result ≡ known_free end.new.1 }
{
    let (_, producer) = end;
    producer.push_reserved(item);
    producer.cached_slots()
}

// The links with room, once the ring of one of them has so many free slots.
fn room_after(room: u32, link: u8, free: usize) -> u32
    requires { link < 32 }
    ensures { (other : ℕ) →
        bit_at result other ≡ 1 →
        (bit_at room other ≡ 1) × (other ≡ link → 0 < free) }
{
    if free > 0 {
        room
    } else {
        room & !(1u32 << link)
    }
}

impl Outs {
    /// The ends, of whose rings nothing is known yet.
    pub(crate) fn new(ends: Vec<(u8, Out)>) -> Outs
        requires low { All (λ o. o.0 < 32) ends.items }
        ensures { result.ends ≡ ends }
    {
        let links = links_of(ends.as_slice());
        let room = 0;
        Outs { ends, links, room }
    }

    /// The ends alone.
    pub(crate) fn into_ends(self) -> Vec<(u8, Out)>
        ensures { result ≡ self.ends }
    {
        let Outs {
            ends,
            links: _,
            room: _,
        } = self;
        ends
    }

    /// The links whose rings are known to have room, a bit for each. The rings are asked only where one of them is not known to have it.
    pub(crate) fn look(&mut self) -> u32
        requires low { All (λ o. o.0 < 32) self.old.ends.items }
        ensures room { HaveRoom result self.new.ends.items }
        ensures looked { AllZip OutLooked self.old.ends.items self.new.ends.items }
    {
        if self.room != self.links {
            self.room = room_of(self.ends.as_mut_slice());
        }
        self.room
    }

    /// Puts an item on the ring of a link, which is known to have room.
    pub(crate) fn put(&mut self, link: u8, item: Stamped)
        requires low { All (λ o. o.0 < 32) self.old.ends.items }
        requires links { Distinct (out_links self.old.ends.items) }
        requires room { HasRoom self.old.ends.items link }
        requires stamp { 1 ≤ item.at }
        ensures among { IsAmong (out_links self.old.ends.items) link }
        ensures put { HasPut link item self.old.ends.items self.new.ends.items }
    {
        let k = find_out(self.ends.as_slice(), link);
        let free = put_item(&mut self.ends[k], item);
        self.room = room_after(self.room, link, free);
    }
}
