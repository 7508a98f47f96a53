//! Wires, each with its links.
use crate::cause::LabelCause;
use crate::links::Links;
use crate::unmade::Unmade;
use sqlite_items::Items;
use std::alloc::Global;
use vc_plan::{Name, Port, Spot, Wire};
use vc_reader::{BareNetwork, BareWire};

/// The name of a node or a switch; no bytes if there is none.
fn spot_name(alloc: Global, bare: &BareNetwork, spot: Spot) -> Result<Name, Unmade> {
    let name = match spot {
        Spot::Node(n) => bare.nodes.get(usize::from(n)),
        Spot::Switch(n) => bare.switches.get(usize::from(n)),
    };
    Ok(match name {
        Some(name) => Items::from_slice(alloc, name.as_slice())?,
        None => Items::new(alloc),
    })
}

/// So many free links of a node or a switch.
fn free(
    alloc: Global,
    bare: &BareNetwork,
    links: &mut Links,
    (spot, count): (Spot, u16),
) -> Result<Vec<u8>, Unmade> {
    let found = links.free(alloc, spot, count)?;
    if found.len() < usize::from(count) {
        return Err(Unmade::Network(LabelCause::Links {
            place: spot_name(alloc, bare, spot)?,
        }));
    }
    Ok(found)
}

/// The wires of the file's entries, in order. Links that are left out are the least ones that no wire of the file has.
pub(crate) fn whole_wires(alloc: Global, bare: &BareNetwork) -> Result<Vec<Wire>, Unmade> {
    let mut links = Links::new(alloc)?;
    for entry in bare.wires.as_slice() {
        if let BareWire::Linked(wire) = entry {
            links.take(wire.one);
            links.take(wire.two);
        }
    }
    let mut wires = Vec::new(alloc);
    for entry in bare.wires.as_slice() {
        match *entry {
            BareWire::Linked(wire) => wires.push(wire)?,
            BareWire::Unlinked { one, two, count } => {
                let from = free(alloc, bare, &mut links, (one, count))?;
                let to = free(alloc, bare, &mut links, (two, count))?;
                for (a, b) in from.iter().zip(to.iter()) {
                    wires.push(Wire {
                        one: Port {
                            spot: one,
                            link: *a,
                        },
                        two: Port {
                            spot: two,
                            link: *b,
                        },
                    })?;
                }
            }
        }
    }
    Ok(wires)
}
