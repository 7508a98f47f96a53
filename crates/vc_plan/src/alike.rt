//! Virtual links whose packets go the same ways.
ghost use Rattle.std.specs.Prelude.{◌≡◌, ℕ, Decides, Some, slice_get};
ghost use Rattle.vc_labels.specs.Interval.{action_for};
ghost use Rattle.vc_plan.specs.declared.switch_plan.SwitchPlan.{SwitchPlan};
ghost use Rattle.vc_plan.specs.Alike.{AreAlike, AreLikeEnds, AreLikeLinks, AreSame};

use crate::plan::Plan;
use crate::switch_plan::SwitchPlan;
use crate::vlink::{End, Vlink};
use vc_labels::{Action, Row, find_action};

fn are_equal(a: Action, b: Action) -> bool
    ensures { Decides result (a ≡ b) }
{
    a == b
}

/// Whether a table has one action for both headers, or none for either.
fn has_one_action(rows: &[Row], x: u16, y: u16) -> bool
    ensures { Decides result (action_for rows.now x ≡ action_for rows.now y) }
{
    match find_action(rows, x) {
        None => find_action(rows, y).is_none(),
        Some(one) => match find_action(rows, y) {
            None => false,
            Some(other) => are_equal(one, other),
        },
    }
}

/// Whether each table has.
fn have_one_action(switches: &[SwitchPlan], x: u16, y: u16) -> bool
    ensures { Decides result ((n : ℕ) (plan : SwitchPlan) → slice_get switches.now n ≡ Some plan →
        action_for plan.rows x ≡ action_for plan.rows y) }
{
    for plan in switches {
        if !has_one_action(plan.rows.as_slice(), x, y) {
            return false;
        }
    }
    true
}

/// Whether no table tells two headers apart.
fn are_same(net: &Plan, x: u16, y: u16) -> bool
    ensures { Decides result (AreSame net.now x y) }
{
    if x == y {
        return true;
    }
    have_one_action(net.switches.as_slice(), x, y)
}

/// Whether none does, header by header.
fn are_alike(net: &Plan, one: &[u16], other: &[u16]) -> bool
    ensures { Decides result (AreAlike net.now one.now other.now) }
{
    match one {
        [] => other.is_empty(),
        [x, one @ ..] => match other {
            [] => false,
            [y, other @ ..] => are_same(net, *x, *y) && are_alike(net, one, other),
        },
    }
}

fn are_like_ends(net: &Plan, one: &End, other: &End) -> bool
    ensures { Decides result (AreLikeEnds net.now one.now other.now) }
{
    one.node == other.node
        && one.link == other.link
        && are_alike(net, one.route.as_slice(), other.route.as_slice())
}

/// Whether the packets of two virtual links go the same ways: each end of the one sends by the link by which that of the other does, with
/// headers that no table tells from the other's.
pub fn are_like_links(net: &Plan, one: &Vlink, other: &Vlink) -> bool
    ensures { Decides result (AreLikeLinks net.now one.now other.now) }
{
    are_like_ends(net, &one.a, &other.a) && are_like_ends(net, &one.b, &other.b)
}
