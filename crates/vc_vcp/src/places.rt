//! Where the outputs and inputs of a node are, by their channel or their block: each has a name of its own, and is looked for first
//! where a hint says.
ghost use Rattle.std.specs.Prelude.{◌≡◌, ◌<◌, ◌==◌, length, slice_get, None, MatchOption, IfSome};
ghost use Rattle.std.specs.List.{position};
ghost use Rattle.vc_vcp.specs.Names.{named, NamesDiffer};

use crate::input::Input;
use crate::output::Output;

/// The place of the output on a channel.
pub(crate) fn output_on(outputs: &[Output], hint: usize, chan: u16) -> Option<usize>
    requires { NamesDiffer (λ x. x.chan) outputs.now }
    ensures found { MatchOption result (named (λ x. x.chan) chan outputs.now ≡ None)
        (λ i. slice_get outputs.now i ≡ named (λ x. x.chan) chan outputs.now) }
    ensures within { IfSome result (λ i. i < length outputs.now) }
{
    if hint < outputs.len() && outputs[hint].chan == chan {
        return Some(hint);
    }
    first_output_on(outputs, chan)
}

/// The place of the first output on a channel.
#[inline(never)]
fn first_output_on(outputs: &[Output], chan: u16) -> Option<usize>
    ensures { result ≡ position (λ x. x.chan == chan) outputs.now }
{
    outputs.iter().position(|output| output.chan == chan)
}

/// The place of the output whose acknowledges come to a block.
pub(crate) fn output_of(outputs: &[Output], hint: usize, block: u16) -> Option<usize>
    requires { NamesDiffer (λ x. x.block) outputs.now }
    ensures found { MatchOption result (named (λ x. x.block) block outputs.now ≡ None)
        (λ i. slice_get outputs.now i ≡ named (λ x. x.block) block outputs.now) }
    ensures within { IfSome result (λ i. i < length outputs.now) }
{
    if hint < outputs.len() && outputs[hint].block == block {
        return Some(hint);
    }
    first_output_of(outputs, block)
}

/// The place of the first output whose acknowledges come to a block.
#[inline(never)]
fn first_output_of(outputs: &[Output], block: u16) -> Option<usize>
    ensures { result ≡ position (λ x. x.block == block) outputs.now }
{
    outputs.iter().position(|output| output.block == block)
}

/// The place of the input on a channel.
pub(crate) fn input_on(inputs: &[Input], hint: usize, chan: u16) -> Option<usize>
    requires { NamesDiffer (λ x. x.chan) inputs.now }
    ensures found { MatchOption result (named (λ x. x.chan) chan inputs.now ≡ None)
        (λ i. slice_get inputs.now i ≡ named (λ x. x.chan) chan inputs.now) }
    ensures within { IfSome result (λ i. i < length inputs.now) }
{
    if hint < inputs.len() && inputs[hint].chan == chan {
        return Some(hint);
    }
    first_input_on(inputs, chan)
}

/// The place of the first input on a channel.
#[inline(never)]
fn first_input_on(inputs: &[Input], chan: u16) -> Option<usize>
    ensures { result ≡ position (λ x. x.chan == chan) inputs.now }
{
    inputs.iter().position(|input| input.chan == chan)
}

/// The place of the input whose pieces come to a block.
pub(crate) fn input_of(inputs: &[Input], hint: usize, block: u16) -> Option<usize>
    requires { NamesDiffer (λ x. x.block) inputs.now }
    ensures found { MatchOption result (named (λ x. x.block) block inputs.now ≡ None)
        (λ i. slice_get inputs.now i ≡ named (λ x. x.block) block inputs.now) }
    ensures within { IfSome result (λ i. i < length inputs.now) }
{
    if hint < inputs.len() && inputs[hint].block == block {
        return Some(hint);
    }
    first_input_of(inputs, block)
}

/// The place of the first input whose pieces come to a block.
#[inline(never)]
fn first_input_of(inputs: &[Input], block: u16) -> Option<usize>
    ensures { result ≡ position (λ x. x.block == block) inputs.now }
{
    inputs.iter().position(|input| input.block == block)
}
