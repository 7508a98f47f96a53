//! The links of a switch as they begin.
ghost use Rattle.std.specs.Prelude.{◌≡◌, IfOk};
ghost use Rattle.vc_switch.specs.Opening.{deletes, range_given};
ghost use Rattle.vc_switch.specs.Private.Opening.{link_count, listed, new_link_in, new_link_out};

use crate::link_in::LinkIn;
use crate::link_out::LinkOut;
use crate::random_range::RandomRange;
use crate::switch_plan::RandomInput;
use std::alloc::Global;
use vc_packets::Memory;

/// How many links a switch has.
pub(crate) const LINKS: u8 = 32;

/// What the links do with headers: the random range of each input link, and whether each output link deletes the front header.
pub(crate) fn headers(
    alloc: Global,
    random: &[RandomInput],
    delete: &[u8],
) -> Result<(Vec<Option<RandomRange>>, Vec<bool>), Memory>
    ensures ranges { IfOk result (λ all. all.0.items ≡ listed (range_given random.now) link_count) }
    ensures deletions { IfOk result (λ all. all.1.items ≡ listed (deletes delete.now) link_count) }
{
    let ranges = ranges(alloc, random)?;
    Ok((ranges, deletions(alloc, delete)?))
}

// The random range of each input link.
fn ranges(alloc: Global, random: &[RandomInput]) -> Result<Vec<Option<RandomRange>>, Memory>
    ensures { IfOk result (λ ranges. ranges.items ≡ listed (range_given random.now) link_count) }
{
    let mut ranges = Vec::new(alloc);
    for link in 0..LINKS {
        ranges.push(range_of(random, link))?;
    }
    Ok(ranges)
}

// The random range of an input link.
fn range_of(random: &[RandomInput], link: u8) -> Option<RandomRange>
    ensures { result ≡ range_given random.now link }
{
    for input in random {
        if input.link == link {
            return Some(RandomRange {
                lower: input.lower,
                limit: input.limit,
            });
        }
    }
    None
}

// Whether each output link deletes the front header.
fn deletions(alloc: Global, delete: &[u8]) -> Result<Vec<bool>, Memory>
    ensures { IfOk result (λ all. all.items ≡ listed (deletes delete.now) link_count) }
{
    let mut all = Vec::new(alloc);
    for link in 0..LINKS {
        all.push(does_delete(delete, link))?;
    }
    Ok(all)
}

// Whether an output link deletes the front header.
fn does_delete(delete: &[u8], link: u8) -> bool
    ensures { result ≡ deletes delete.now link }
{
    for other in delete {
        if *other == link {
            return true;
        }
    }
    false
}

/// The two ends of each link, for packets of at most `limit` bytes.
pub(crate) fn links(alloc: Global, limit: usize) -> Result<(Vec<LinkIn>, Vec<LinkOut>), Memory>
    ensures inputs { IfOk result
        (λ all. all.0.items ≡ listed (λ link. new_link_in limit) link_count) }
    ensures outputs { IfOk result (λ all. all.1.items ≡ listed (λ link. new_link_out) link_count) }
{
    let outputs = outputs(alloc)?;
    Ok((inputs(alloc, limit)?, outputs))
}

// The receiving ends of the links, for packets of at most `limit` bytes.
fn inputs(alloc: Global, limit: usize) -> Result<Vec<LinkIn>, Memory>
    ensures { IfOk result (λ inputs. inputs.items ≡ listed (λ link. new_link_in limit) link_count) }
{
    let mut inputs = Vec::new(alloc);
    for _link in 0..LINKS {
        inputs.push(LinkIn::new(alloc, limit)?)?;
    }
    Ok(inputs)
}

// The sending ends of the links.
fn outputs(alloc: Global) -> Result<Vec<LinkOut>, Memory>
    ensures { IfOk result (λ outputs. outputs.items ≡ listed (λ link. new_link_out) link_count) }
{
    let mut outputs = Vec::new(alloc);
    for _link in 0..LINKS {
        outputs.push(LinkOut::new())?;
    }
    Ok(outputs)
}
