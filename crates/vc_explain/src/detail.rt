//! What is added to the sentence of a refusal: the link of a row that is on no wire, or with which headers a packet should have come.
ghost use Rattle.std.specs.Prelude.{◌≡◌, ◌++◌, ◌-◌, [], None, OnOk, option_map, suc};
ghost use Rattle.std.specs.List.{list_any};
ghost use Rattle.vc_explain.specs.Details.{bad_row as bad_row_of, detail, end_detail, end_block, end_place, faulty_row as faulty_row_of, has_port as has_port_of, keeper_text, keeps_at, last_keeper as last_keeper_of, link_text, loose_in as loose_in_action, loose_link as loose_link_from, loose_row as loose_row_from, table_detail, way_detail};
ghost use Rattle.vc_plan.specs.Wires.{switch_at};

use crate::offender::{equal_ports, equal_spots};
use crate::walk::deletes;
use vc_labels::{Action, Row, fault_of_rows};
use vc_packets::Memory;
use vc_plan::{CheckRefused, End, Hop, PathFault, Plan, Port, Spot, Vlink, Wire};
use vc_text::{push_hop, push_number};

/// The first row that gives the rows up to it a fault.
fn faulty_row(rows: &[Row]) -> Option<usize>
    ensures { result ≡ faulty_row_of rows.now }
{
    for k in 0..rows.len() {
        if fault_of_rows(&rows[..k + 1]).is_some() {
            return Some(k);
        }
    }
    None
}

fn has_port(port: Port, wire: &Wire) -> bool
    ensures { result ≡ has_port_of port wire.now }
{
    equal_ports(wire.one, port) || equal_ports(wire.two, port)
}

fn is_wired(wires: &[Wire], port: Port) -> bool
    ensures { result ≡ list_any (has_port_of port) wires.now }
{
    wires.iter().any(|wire| has_port(port, wire))
}

/// The first of the links `first` to `last` of switch n that is on no wire.
fn loose_link(wires: &[Wire], n: u8, first: u8, last: u8) -> Option<u8>
    ensures { result ≡ loose_link_from wires.now n (suc last - first) first }
{
    for link in first..=last {
        let port = Port {
            spot: Spot::Switch(n),
            link,
        };
        if !is_wired(wires, port) {
            return Some(link);
        }
    }
    None
}

fn loose_in(wires: &[Wire], n: u8, action: Action) -> Option<u8>
    ensures { result ≡ loose_in_action wires.now n action }
{
    match action {
        Action::Out { first, last } => loose_link(wires, n, first, last),
        Action::Portal => None,
    }
}

/// The first row of switch n with a link that is on no wire, and the link.
fn loose_row(wires: &[Wire], n: u8, rows: &[Row]) -> Option<(usize, u8)>
    ensures { result ≡ loose_row_from wires.now n 0 rows.now }
{
    for (k, row) in rows.iter().enumerate() {
        if let Some(link) = loose_in(wires, n, row.action) {
            return Some((k, link));
        }
    }
    None
}

/// The row of a table that is at fault.
pub(crate) fn bad_row(plan: &Plan, n: u8) -> Option<usize>
    ensures { result ≡ bad_row_of plan.now n (switch_at plan.now n) }
{
    let switch = plan.switches.get(usize::from(n))?;
    let rows = switch.rows.as_slice();
    match faulty_row(rows) {
        Some(k) => Some(k),
        None => loose_row(plan.wires.as_slice(), n, rows).map(|found| found.0),
    }
}

/// Adds that a link is on no wire.
#[tactic(auto, using(std::proofs::Common::append_assoc), unfolding(crate::specs::Details::link_text))]
fn push_link(out: &mut Vec<u8>, link: u64) -> Result<(), Memory>
    ensures { OnOk result (out.new.items ≡ out.old.items ++ link_text link) }
{
    out.extend_from_slice(b" Link ")?;
    push_number(out, link)?;
    out.extend_from_slice(b" is on no wire.")?;
    Ok(())
}

/// Adds the link of a row that is on no wire, if no row has another fault.
fn push_table(out: &mut Vec<u8>, plan: &Plan, n: u8) -> Result<(), Memory>
    ensures { OnOk result (out.new.items
        ≡ out.old.items ++ table_detail plan.now n (switch_at plan.now n)) }
{
    let Some(switch) = plan.switches.get(usize::from(n)) else {
        return Ok(());
    };
    let rows = switch.rows.as_slice();
    if faulty_row(rows).is_some() {
        return Ok(());
    }
    match loose_row(plan.wires.as_slice(), n, rows) {
        Some((_, link)) => push_link(out, u64::from(link)),
        None => Ok(()),
    }
}

/// Whether the hop's link deletes no header.
fn keeps(plan: &Plan, hop: &Hop) -> bool
    ensures { result ≡ keeps_at (switch_at plan.now hop.now.switch) hop.now }
{
    match plan.switches.get(usize::from(hop.switch)) {
        Some(switch) => !deletes(switch.delete.as_slice(), hop.link),
        None => false,
    }
}

/// The last hop whose link deletes no header.
fn last_keeper(plan: &Plan, hops: &[Hop]) -> Option<Hop>
    ensures { result ≡ last_keeper_of plan.now None hops.now }
{
    let mut found = None;
    for hop in hops {
        if keeps(plan, hop) {
            found = Some(*hop);
        }
    }
    found
}

#[tactic(auto, using(std::proofs::Common::append_assoc))]
fn push_keeper(out: &mut Vec<u8>, plan: &Plan, keeper: Option<Hop>) -> Result<(), Memory>
    ensures { OnOk result (out.new.items ≡ out.old.items ++ keeper_text plan.now keeper) }
{
    if let Some(hop) = keeper {
        out.extend_from_slice(b" No header is deleted at")?;
        push_hop(out, plan, &hop)?;
        out.extend_from_slice(b".")?;
    }
    Ok(())
}

#[tactic(auto, using(std::proofs::Common::append_assoc), unfolding(crate::specs::Details::end_place))]
fn push_end_place(out: &mut Vec<u8>, plan: &Plan, end: &End) -> Result<(), Memory>
    ensures { OnOk result (out.new.items ≡ out.old.items ++ end_place plan.now end.now) }
{
    out.extend_from_slice(b" The other end is at ")?;
    out.extend_from_slice(plan.node_name(usize::from(end.node)))?;
    Ok(())
}

#[tactic(auto, using(std::proofs::Common::append_assoc), unfolding(crate::specs::Details::end_block))]
fn push_end_block(out: &mut Vec<u8>, block: u64) -> Result<(), Memory>
    ensures { OnOk result (out.new.items ≡ out.old.items ++ end_block block) }
{
    out.extend_from_slice(b", and takes the header ")?;
    push_number(out, block)?;
    out.extend_from_slice(b" alone.")?;
    Ok(())
}

/// Adds what the other end takes; and if a packet came there with more, the last port that deletes no header.
#[tactic(auto, using(std::proofs::Common::append_assoc))]
fn push_end(out: &mut Vec<u8>, plan: &Plan, fault: &PathFault, end: &End) -> Result<(), Memory>
    ensures { OnOk result (out.new.items
        ≡ out.old.items ++ end_detail plan.now fault.now end.now) }
{
    push_end_place(out, plan, end)?;
    push_end_block(out, u64::from(end.block))?;
    if equal_spots(fault.last, Spot::Node(end.node)) {
        push_keeper(out, plan, last_keeper(plan, fault.hops.as_slice()))?;
    }
    Ok(())
}

fn push_way(
    out: &mut Vec<u8>,
    plan: &Plan,
    fault: &PathFault,
    vlink: Option<&Vlink>,
) -> Result<(), Memory>
    ensures { OnOk result (out.new.items ≡ out.old.items
        ++ way_detail plan.now fault.now (option_map (λ v. v.now) vlink.entry)) }
{
    match vlink {
        Some(vlink) if fault.from_a => push_end(out, plan, fault, &vlink.b),
        Some(vlink) => push_end(out, plan, fault, &vlink.a),
        None => Ok(()),
    }
}

/// Adds what is said of the refusal beside its sentence.
#[tactic(auto, unfolding(crate::specs::Details::detail))]
pub(crate) fn push_detail(out: &mut Vec<u8>, plan: &Plan, why: &CheckRefused) -> Result<(), Memory>
    ensures { OnOk result (out.new.items ≡ out.old.items ++ detail plan.now why.now) }
{
    match why {
        CheckRefused::Table { switch, fault: _ } => push_table(out, plan, *switch),
        CheckRefused::WrongEnd(fault) => {
            push_way(out, plan, fault, plan.vlinks.get(usize::from(fault.vlink)))
        }
        _ => Ok(()),
    }
}
