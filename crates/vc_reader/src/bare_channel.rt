//! Readers of channels whose kinds and ends may be left out.
ghost use Rattle.std.specs.Prelude.{Result};
ghost use Rattle.serde_json.specs.View.{view};
ghost use Rattle.vc_reader.specs.declared.fault.Fault.{Fault as FaultData};
ghost use Rattle.vc_reader.specs.Private.Reading.{Gives};
ghost use Rattle.vc_reader.specs.Private.Bare.{some_of};
ghost use Rattle.vc_reader.specs.Reading.{read_object};
ghost use Rattle.vc_reader.specs.Bare.{optional as optional_of, bare_channel_words, bare_ends as bare_ends_of, named_channel, described_channel, read_bare_channel};

use crate::bare::{BareChannel, BareEnds};
use crate::fault::Stop;
use crate::name::NewName;
use crate::node::{Head, NodeOf};
use crate::path::Step;
use crate::reader::{NamedReader, Reader, field, has_field, object, under};
use crate::register::{Named, Register};
use crate::scalar::Kind;
use crate::word::Word;
use serde_json::Value;
use std::alloc::Global;

impl Named for BareChannel {
    ghost name_of = { λ c. c.name };

    fn name(&self) -> &[u8] {
        self.name.as_slice()
    }
}

/// What was read, as something that might have been absent.
fn present<T: Drop>(read: Result<T, Stop>) -> Result<Option<T>, Stop>
    ensures { (meant : Result T FaultData) →
        Gives (λ x. x) read meant →
        Gives (λ x. x) result (some_of meant) }
{
    Ok(Some(read?))
}

/// A field that may be absent.
fn optional<R: Reader>(
    alloc: Global,
    word: Word,
    reader: &R,
    value: &Value,
) -> Result<Option<R::Out>, Stop>
    ensures { Gives (λ x. x) result (optional_of word (R.meaning reader.now) (view value.now)) }
{
    let read = match value.get(word.text()) {
        Some(part) => present(reader.read(alloc, part)),
        None => Ok(None),
    };
    under(Step::Field(word), read)
}

/// Where a channel goes, as far as its object says it.
fn bare_ends(alloc: Global, nodes: &Register<Head>, value: &Value) -> Result<BareEnds, Stop>
    ensures { Gives (λ x. x) result (bare_ends_of nodes.now (view value.now)) }
{
    if has_field(Word::Node, value) {
        let node = field(alloc, Word::Node, &NodeOf(nodes), value)?;
        Ok(BareEnds::Within(node))
    } else {
        let from = optional(alloc, Word::From, &NodeOf(nodes), value)?;
        let to = optional(alloc, Word::To, &NodeOf(nodes), value)?;
        Ok(BareEnds::Between { from, to })
    }
}

/// An object that has no fields but those of a channel.
fn bare_channel_object(alloc: Global, value: &Value) -> Result<(), Stop>
    ensures { Gives (λ x. x) result
        (read_object (bare_channel_words (view value.now)) (view value.now)) }
{
    if has_field(Word::Node, value) {
        object(alloc, &[Word::Name, Word::Kind, Word::Node], value)
    } else {
        object(
            alloc,
            &[Word::Name, Word::Kind, Word::From, Word::To],
            value,
        )
    }
}

/// A channel of a name alone.
fn named_channel(
    alloc: Global,
    before: &Register<BareChannel>,
    value: &Value,
) -> Result<BareChannel, Stop>
    ensures { Gives (λ x. x) result (named_channel before.now (view value.now)) }
{
    let name = NewName(before).read(alloc, value)?;
    Ok(BareChannel {
        name,
        kind: None,
        ends: BareEnds::Between {
            from: None,
            to: None,
        },
    })
}

/// A channel between or inside these nodes.
#[derive(Drop)]
pub(crate) struct BareChannelReader<'a>(pub &'a Register<Head>);

impl BareChannelReader<'_> {
    /// A channel that an object describes.
    fn described(
        &self,
        alloc: Global,
        before: &Register<BareChannel>,
        value: &Value,
    ) -> Result<BareChannel, Stop>
        ensures { Gives (λ x. x) result
            (described_channel self.now.0.now before.now (view value.now)) }
    {
        bare_channel_object(alloc, value)?;
        let name = field(alloc, Word::Name, &NewName(before), value)?;
        let kind = optional(alloc, Word::Kind, &Kind, value)?;
        let ends = bare_ends(alloc, self.0, value)?;
        Ok(BareChannel { name, kind, ends })
    }
}

impl NamedReader for BareChannelReader<'_> {
    type Out = BareChannel;

    ghost meaning = { λ r. read_bare_channel r.0.now };

    fn read(
        &self,
        alloc: Global,
        before: &Register<BareChannel>,
        value: &Value,
    ) -> Result<BareChannel, Stop> {
        match value {
            Value::String(_) => named_channel(alloc, before, value),
            _ => self.described(alloc, before, value),
        }
    }
}
