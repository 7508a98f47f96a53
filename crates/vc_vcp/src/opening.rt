//! The outputs, inputs and links of a node as they begin: idle halves for the ends that have a channel, and four empty links.
ghost use Rattle.std.specs.Prelude.{◌≡◌, IfOk};
ghost use Rattle.vc_vcp.specs.Private.Opening.{opened_output, opened_outputs, opened_input, opened_inputs, four, new_out, new_in};

use crate::end::End;
use crate::input::Input;
use crate::link_in::LinkIn;
use crate::link_out::LinkOut;
use crate::output::Output;
use sqlite_items::Items;
use std::alloc::Global;
use vc_blocks::{InHalf, MessageLog, OutHalf};
use vc_packets::Memory;

/// How many links a node has.
pub(crate) const LINKS: usize = 4;

/// The outputs of these ends, in their order.
pub(crate) fn outputs(alloc: Global, ends: &[End]) -> Result<Vec<Output>, Memory>
    ensures { IfOk result (λ outputs. outputs.items ≡ opened_outputs ends.now) }
{
    let mut outputs = Vec::new(alloc);
    for end in ends {
        if let Some(chan) = end.output {
            outputs.push(output(alloc, end, chan)?)?;
        }
    }
    Ok(outputs)
}

/// The inputs of these ends, in their order.
pub(crate) fn inputs(alloc: Global, ends: &[End]) -> Result<Vec<Input>, Memory>
    ensures { IfOk result (λ inputs. inputs.items ≡ opened_inputs ends.now) }
{
    let mut inputs = Vec::new(alloc);
    for end in ends {
        if let Some(chan) = end.input {
            inputs.push(input(alloc, end, chan)?)?;
        }
    }
    Ok(inputs)
}

/// The sending ends of the four links.
pub(crate) fn outs(alloc: Global) -> Result<Vec<LinkOut>, Memory>
    ensures { IfOk result (λ outs. outs.items ≡ four new_out) }
{
    let outs = vec![in alloc;
        LinkOut::new(alloc),
        LinkOut::new(alloc),
        LinkOut::new(alloc),
        LinkOut::new(alloc),
    ]?;
    Ok(outs)
}

/// The receiving ends of the four links, for packets of at most `limit` bytes.
pub(crate) fn ins(alloc: Global, limit: usize) -> Result<Vec<LinkIn>, Memory>
    ensures { IfOk result (λ ins. ins.items ≡ four (new_in limit)) }
{
    let mut ins = Vec::with_capacity(alloc, LINKS)?;
    for _ in 0..LINKS {
        ins.push(LinkIn::new(alloc, limit)?)?;
    }
    Ok(ins)
}

// A channel goes out by an end.
fn output(alloc: Global, end: &End, chan: u16) -> Result<Output, Memory>
    ensures { IfOk result (λ output. output ≡ opened_output end.now chan) }
{
    let half = OutHalf::new(alloc, end.route.as_slice())?;
    Ok(Output {
        chan,
        link: end.link,
        block: end.block,
        half,
        offered: MessageLog::new(alloc),
    })
}

// A channel comes in by an end.
fn input(alloc: Global, end: &End, chan: u16) -> Result<Input, Memory>
    ensures { IfOk result (λ input. input ≡ opened_input end.now chan) }
{
    let route = Items::from_slice(alloc, end.route.as_slice())?;
    Ok(Input {
        chan,
        link: end.link,
        block: end.block,
        route,
        half: InHalf::new(alloc),
        taken: MessageLog::new(alloc),
    })
}
