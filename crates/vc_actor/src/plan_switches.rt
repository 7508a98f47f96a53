//! Building the switches of an accepted plan.
ghost use Rattle.std.specs.Prelude.{◌≡◌, ◌≤◌, true, None, IfOk};
ghost use Rattle.std.specs.List.{list_all};
ghost use Rattle.vc_actor.specs.Private.Begin.{IsBuilt, ranges_given};
ghost use Rattle.vc_labels.specs.Fault.{table_fault};
ghost use Rattle.vc_plan.specs.Limits.{switch_links_ok, range_ok};

use sqlite_items::Items;
use std::alloc::Global;
use vc_labels::Table;
use vc_packets::Memory;
use vc_plan::{RandomInput as PlanRange, SwitchPlan};
use vc_switch::{RandomInput, ReadySwitch, SwitchPlan as Given};

// The random ranges of a plan's switch.
fn ranges_of(alloc: Global, ranges: &[PlanRange]) -> Result<Items<RandomInput>, Memory>
    ensures { IfOk result (λ given. given ≡ ranges_given ranges.now) }
{
    let mut given = Items::new(alloc);
    for range in ranges {
        given.push(RandomInput {
            link: range.link,
            lower: range.lower,
            limit: range.limit,
        })?;
    }
    Ok(given)
}

/// A switch of the plan, with nothing on its links.
pub(crate) fn build_switch(
    alloc: Global,
    plan: &SwitchPlan,
    body_limit: usize,
) -> Result<ReadySwitch, Memory>
    requires table { table_fault plan.now.rows ≡ None }
    requires links { switch_links_ok plan.now ≡ true }
    requires ranges { list_all range_ok plan.now.random ≡ true }
    requires room { 2 ≤ body_limit }
    ensures { IfOk result (IsBuilt plan.now body_limit) }
{
    let Ok(table) = Table::new(Items::from_slice(alloc, plan.rows.as_slice())?) else {
        unreachable!();
    };
    let random = ranges_of(alloc, plan.random.as_slice())?;
    let given = Given {
        table,
        delete: plan.delete.as_slice(),
        random: random.as_slice(),
    };
    ReadySwitch::new(alloc, given, body_limit)
}
