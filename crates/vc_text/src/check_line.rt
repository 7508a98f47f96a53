//! The line for a plan that is refused.
ghost use Rattle.std.specs.Prelude.{◌≡◌, ◌++◌, OnOk};
ghost use Rattle.vc_text.specs.FaultLine.{limit_text as text_of_limit, table_text as text_of_table, check_head, block_text, switch_fault_text, usage_text, offender_text, check_line as line_of_check};

use crate::plan_text::push_path;
use vc_labels::TableFault;
use vc_packets::Memory;
use vc_plan::{CheckRefused, LimitWord, Plan};
use vc_waits::{push_number, push_port};

fn limit_text(word: LimitWord) -> &'static str
    ensures { result.now ≡ text_of_limit word }
{
    match word {
        LimitWord::Version => "version",
        LimitWord::Nodes => "nodes",
        LimitWord::Switches => "switches",
        LimitWord::Wires => "wires",
        LimitWord::Vlinks => "vlinks",
        LimitWord::Channels => "channels",
        LimitWord::Vars => "vars",
        LimitWord::Rows => "rows",
        LimitWord::Route => "route",
        LimitWord::Link => "link",
        LimitWord::Random => "random",
        LimitWord::Depth => "depth",
        LimitWord::Parts => "parts",
        LimitWord::Message => "message",
        LimitWord::Number => "number",
        LimitWord::Name => "name",
    }
}

fn table_text(fault: TableFault) -> &'static str
    ensures { result.now ≡ text_of_table fault }
{
    match fault {
        TableFault::NotRising => "NotRising",
        TableFault::Gap => "Gap",
        TableFault::BadLink => "BadLink",
    }
}

/// The number and the name of a refusal.
fn head(why: &CheckRefused) -> &'static str
    ensures { result.now ≡ check_head why.now }
{
    match why {
        CheckRefused::Limit(_) => "refused 1 Limit ",
        CheckRefused::PortTwice(_) => "refused 2 PortTwice ",
        CheckRefused::PortMissing(_) => "refused 3 PortMissing ",
        CheckRefused::BlockTwice { .. } => "refused 4 BlockTwice ",
        CheckRefused::Table { .. } => "refused 5 Table ",
        CheckRefused::NoInterval(_) => "refused 6 NoInterval ",
        CheckRefused::WrongEnd(_) => "refused 7 WrongEnd ",
        CheckRefused::StackEmpty(_) => "refused 8 StackEmpty ",
        CheckRefused::StackFull(_) => "refused 9 StackFull ",
        CheckRefused::Hops(_) => "refused 10 Hops ",
        CheckRefused::SameNode(_) => "refused 11 SameNode ",
        CheckRefused::Channel(_) => "refused 12 Channel ",
        CheckRefused::Usage { .. } => "refused 13 Usage ",
        CheckRefused::Memory => "fault memory",
    }
}

fn push_block(out: &mut Vec<u8>, plan: &Plan, node: u8, block: u16) -> Result<(), Memory>
    ensures { OnOk result (out.new.items ≡ out.old.items ++ block_text plan.now node block) }
{
    out.extend_from_slice(plan.node_name(usize::from(node)))?;
    out.extend_from_slice(b" ")?;
    push_number(out, block as u64)
}

fn push_switch_fault(
    out: &mut Vec<u8>,
    plan: &Plan,
    switch: u8,
    fault: TableFault,
) -> Result<(), Memory>
    ensures { OnOk result
        (out.new.items ≡ out.old.items ++ switch_fault_text plan.now switch fault) }
{
    out.extend_from_slice(plan.switch_name(usize::from(switch)))?;
    out.extend_from_slice(b" ")?;
    out.extend_from_slice(table_text(fault).as_bytes())?;
    Ok(())
}

fn push_usage(out: &mut Vec<u8>, plan: &Plan, node: u8, name: &[u8]) -> Result<(), Memory>
    ensures { OnOk result (out.new.items ≡ out.old.items ++ usage_text plan.now node name.now) }
{
    out.extend_from_slice(plan.node_name(usize::from(node)))?;
    out.extend_from_slice(b" ")?;
    out.extend_from_slice(name)?;
    Ok(())
}

fn push_name(out: &mut Vec<u8>, name: &[u8]) -> Result<(), Memory>
    ensures { OnOk result (out.new.items ≡ out.old.items ++ name.now) }
{
    out.extend_from_slice(name)?;
    Ok(())
}

fn push_word(out: &mut Vec<u8>, word: LimitWord) -> Result<(), Memory>
    ensures { OnOk result (out.new.items ≡ out.old.items ++ text_of_limit word) }
{
    out.extend_from_slice(limit_text(word).as_bytes())?;
    Ok(())
}

/// The first offender.
fn push_offender(out: &mut Vec<u8>, plan: &Plan, why: &CheckRefused) -> Result<(), Memory>
    ensures { OnOk result (out.new.items ≡ out.old.items ++ offender_text plan.now why.now) }
{
    match why {
        CheckRefused::Limit(word) => push_word(out, *word),
        CheckRefused::PortTwice(port) | CheckRefused::PortMissing(port) => {
            push_port(out, plan, *port)
        }
        CheckRefused::BlockTwice { node, block } => push_block(out, plan, *node, *block),
        CheckRefused::Table { switch, fault } => push_switch_fault(out, plan, *switch, *fault),
        CheckRefused::NoInterval(path)
        | CheckRefused::WrongEnd(path)
        | CheckRefused::StackEmpty(path)
        | CheckRefused::StackFull(path)
        | CheckRefused::Hops(path) => push_path(out, plan, path),
        CheckRefused::SameNode(vlink) => push_name(out, plan.vlink_name(usize::from(*vlink))),
        CheckRefused::Channel(chan) => push_name(out, plan.channel_name(usize::from(*chan))),
        CheckRefused::Usage { node, name } => push_usage(out, plan, *node, name.as_slice()),
        CheckRefused::Memory => Ok(()),
    }
}

/// The line for a plan that is refused.
pub(crate) fn push_check_line(
    out: &mut Vec<u8>,
    plan: &Plan,
    why: &CheckRefused,
) -> Result<(), Memory>
    ensures { OnOk result (out.new.items ≡ out.old.items ++ line_of_check plan.now why.now) }
{
    out.extend_from_slice(head(why).as_bytes())?;
    push_offender(out, plan, why)
}
