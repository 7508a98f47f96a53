//! The front header of a body: portals passed, the first header that has a group.
ghost use Rattle.std.specs.Prelude.{◌≡◌, ◌+◌, ◌^◌, ◌≤◌, ◌<◌, ◌↔◌, ℕ, length, IfSome};
ghost use Rattle.std.specs.Int.{bit_at};
ghost use Rattle.vc_switch.specs.Front.{front_of};
ghost use Rattle.vc_switch.specs.Private.Front.{start_of, HasFront};

use vc_labels::{Action, Table};

/// A front header that has a group.
#[derive(Clone, Copy, Drop)]
pub(crate) struct Front {
    /// At which byte of the body it begins, after the portals.
    pub(crate) at: usize,
    /// The group's first link.
    pub(crate) first: u8,
    /// The group's last link.
    pub(crate) last: u8,
}

impl Front {
    /// At which byte a body begins that leaves by a link: at the front header, or after it where the link deletes it.
    pub(crate) fn leaves_from(&self, deletes: bool) -> usize
        requires { self.now.at + 2 < 2 ^ 64 }
        ensures { result ≡ start_of deletes self.now }
    {
        if deletes { self.at + 2 } else { self.at }
    }

    /// A bit for each link of the group.
    pub(crate) fn links(&self) -> u32
        requires group { self.now.first ≤ self.now.last }
        requires few { self.now.last < 32 }
        ensures { (l : ℕ) →
            (bit_at result l ≡ 1) ↔ ((self.now.first ≤ l) × (l ≤ self.now.last)) }
    {
        let past = 1u64 << (self.last + 1);
        let below = 1u64 << self.first;
        (past - below) as u32
    }
}

/// Where a body's front header is and what its group is, if the header is there and has a group.
#[inline(always)]
pub(crate) fn find_front(table: &Table, body: &[u8]) -> Option<Front>
    ensures front { result ≡ front_of table.now body.now }
    ensures has { IfSome result (λ front. HasFront table.now body.now front) }
    ensures within { IfSome result (λ front. front.at + 2 ≤ length body.now) }
{
    let mut at = 0;
    let mut rest = body;
    while let [high, low, behind @ ..] = rest {
        match table.find(u16::from_be_bytes([*high, *low])) {
            None => return None,
            Some(Action::Out { first, last }) => return Some(Front { at, first, last }),
            Some(Action::Portal) => {
                at += 2;
                rest = behind;
            }
        }
    }
    None
}
