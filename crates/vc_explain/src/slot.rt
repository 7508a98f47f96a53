//! The slots of a network file: what may be written at each place.
ghost use Rattle.std.specs.Prelude.{◌≡◌};
ghost use Rattle.vc_explain.specs.Slots.{after as slot_after, fields as fields_of, in_field as field_of, in_item as item_of, of_channel, of_file, of_node, of_process, of_switch, of_value, of_vlink, place as place_of, slot_at as at_path, takes as taken_by};

use vc_reader::{Path, Step, Word};

/// What may be written at a place of a network file.
#[derive(Clone, Copy, Debug, PartialEq, Eq, Drop)]
pub enum Slot {
    /// The file.
    File,
    /// Its version.
    Version,
    /// The nodes.
    Nodes,
    /// A node.
    NodeObject,
    /// The name that a node or a switch is given.
    SpotName,
    /// The variables of a node.
    Variables,
    /// A variable of a node, with its kind.
    Declaration,
    /// The name that a variable is given.
    VariableName,
    /// A kind of messages or variables.
    Kind,
    /// The switches.
    Switches,
    /// A switch.
    SwitchObject,
    /// The table of a switch.
    Table,
    /// A row of a table.
    Row,
    /// A header, or a block.
    Header,
    /// The first header past a row or a range.
    Limit,
    /// A link.
    Link,
    /// The links that delete headers.
    Links,
    /// The random headers of a switch.
    Ranges,
    /// The random headers of a link.
    Range,
    /// The wires.
    Wires,
    /// A wire.
    Wire,
    /// A node or a switch that is named.
    Spot,
    /// A link, or in the short form a node, a switch or a count.
    SpotOrLink,
    /// The virtual links.
    Vlinks,
    /// A virtual link.
    VlinkObject,
    /// The name that a virtual link is given.
    VlinkName,
    /// An end of a virtual link.
    End,
    /// A node that is named.
    Node,
    /// The headers with which packets leave.
    Route,
    /// The channels.
    Channels,
    /// A channel.
    ChannelObject,
    /// The name that a channel is given.
    ChannelName,
    /// A virtual link that is named.
    Vlink,
    /// A way of a virtual link.
    Way,
    /// A process.
    Process,
    /// What follows `set`.
    Assignment,
    /// What follows `out`.
    Output,
    /// What follows `in`.
    Input,
    /// A channel that is named.
    Channel,
    /// A variable that is named.
    Variable,
    /// What follows `seq` or `par`.
    Parts,
    /// What follows `if`.
    Branches,
    /// A branch of an IF.
    Branch,
    /// What follows `while`.
    Loop,
    /// What follows `for`.
    Replication,
    /// What follows `alt`.
    Guards,
    /// A guard of an ALT.
    Guard,
    /// A condition.
    Condition,
    /// A part of a condition.
    Operand,
    /// An expression.
    Expression,
    /// What is assigned or output.
    Value,
    /// What is assigned or output as bytes.
    BytesValue,
    /// What follows `hex`.
    Digits,
    /// What follows `text`.
    Characters,
    /// What follows `fill`.
    Filling,
    /// A byte.
    Byte,
    /// A number of bytes.
    Count,
    /// What no file may have.
    Other,
}

/// A field of the file.
fn file_field(word: Word) -> Slot
    ensures { result ≡ of_file word }
{
    match word {
        Word::Version => Slot::Version,
        Word::Nodes => Slot::Nodes,
        Word::Switches => Slot::Switches,
        Word::Wires => Slot::Wires,
        Word::Vlinks => Slot::Vlinks,
        Word::Channels => Slot::Channels,
        _ => Slot::Other,
    }
}

/// A field of a node.
fn node_field(word: Word) -> Slot
    ensures { result ≡ of_node word }
{
    match word {
        Word::Name => Slot::SpotName,
        Word::Vars => Slot::Variables,
        Word::Process => Slot::Process,
        _ => Slot::Other,
    }
}

/// A field of a switch.
fn switch_field(word: Word) -> Slot
    ensures { result ≡ of_switch word }
{
    match word {
        Word::Name => Slot::SpotName,
        Word::Table => Slot::Table,
        Word::Delete => Slot::Links,
        Word::Random => Slot::Ranges,
        _ => Slot::Other,
    }
}

/// A field of a virtual link.
fn vlink_field(word: Word) -> Slot
    ensures { result ≡ of_vlink word }
{
    match word {
        Word::Name => Slot::VlinkName,
        Word::A | Word::B => Slot::End,
        _ => Slot::Other,
    }
}

/// A field of a channel.
fn channel_field(word: Word) -> Slot
    ensures { result ≡ of_channel word }
{
    match word {
        Word::Name => Slot::ChannelName,
        Word::Kind => Slot::Kind,
        Word::Vlink => Slot::Vlink,
        Word::Way => Slot::Way,
        Word::Node | Word::From | Word::To => Slot::Node,
        _ => Slot::Other,
    }
}

/// What follows the word of a process.
fn process_field(word: Word) -> Slot
    ensures { result ≡ of_process word }
{
    match word {
        Word::Set => Slot::Assignment,
        Word::Out => Slot::Output,
        Word::In => Slot::Input,
        Word::Stopch => Slot::Channel,
        Word::Seq | Word::Par => Slot::Parts,
        Word::If => Slot::Branches,
        Word::While => Slot::Loop,
        Word::For => Slot::Replication,
        Word::Alt => Slot::Guards,
        _ => Slot::Other,
    }
}

/// What follows the word of a value of bytes.
fn value_field(word: Word) -> Slot
    ensures { result ≡ of_value word }
{
    match word {
        Word::Hex => Slot::Digits,
        Word::Text => Slot::Characters,
        Word::Fill => Slot::Filling,
        _ => Slot::Other,
    }
}

/// A place of a list whose places take these.
fn place(slots: &[Slot], n: usize) -> Slot
    ensures { result ≡ place_of slots.now n }
{
    match slots.get(n) {
        Some(slot) => *slot,
        None => Slot::Other,
    }
}

impl Slot {
    /// A field of an object.
    fn field(self, word: Word) -> Slot
        ensures { result ≡ field_of self word }
    {
        match self {
            Slot::File => file_field(word),
            Slot::NodeObject => node_field(word),
            Slot::SwitchObject => switch_field(word),
            Slot::VlinkObject => vlink_field(word),
            Slot::ChannelObject => channel_field(word),
            Slot::Process => process_field(word),
            Slot::Value => value_field(word),
            _ => Slot::Other,
        }
    }

    /// An item of a list.
    fn item(self, n: usize) -> Slot
        ensures { result ≡ item_of self n }
    {
        match self {
            Slot::Nodes => Slot::NodeObject,
            Slot::Variables => Slot::Declaration,
            Slot::Declaration => place(&[Slot::VariableName, Slot::Kind], n),
            Slot::Switches => Slot::SwitchObject,
            Slot::Table => Slot::Row,
            Slot::Row => place(&[Slot::Header, Slot::Limit, Slot::Link, Slot::Link], n),
            Slot::Links => Slot::Link,
            Slot::Ranges => Slot::Range,
            Slot::Range => place(&[Slot::Link, Slot::Header, Slot::Limit], n),
            Slot::Wires => Slot::Wire,
            Slot::Wire => place(
                &[Slot::Spot, Slot::SpotOrLink, Slot::SpotOrLink, Slot::Link],
                n,
            ),
            Slot::Vlinks => Slot::VlinkObject,
            Slot::End => place(&[Slot::Node, Slot::Link, Slot::Header, Slot::Route], n),
            Slot::Route => Slot::Header,
            Slot::Channels => Slot::ChannelObject,
            Slot::Assignment => place(&[Slot::Variable, Slot::Value], n),
            Slot::Output => place(&[Slot::Channel, Slot::Value], n),
            Slot::Input => place(&[Slot::Channel, Slot::Variable], n),
            Slot::Parts => Slot::Process,
            Slot::Branches => Slot::Branch,
            Slot::Branch => place(&[Slot::Condition, Slot::Process], n),
            Slot::Loop => place(&[Slot::Condition, Slot::Process], n),
            Slot::Replication => place(
                &[
                    Slot::Variable,
                    Slot::Expression,
                    Slot::Expression,
                    Slot::Process,
                ],
                n,
            ),
            Slot::Guards => Slot::Guard,
            Slot::Guard => place(
                &[
                    Slot::Condition,
                    Slot::Channel,
                    Slot::Variable,
                    Slot::Process,
                ],
                n,
            ),
            Slot::Condition => Slot::Operand,
            Slot::Operand => Slot::Operand,
            Slot::Expression => Slot::Expression,
            Slot::Value => Slot::Expression,
            Slot::Filling => place(&[Slot::Byte, Slot::Count], n),
            _ => Slot::Other,
        }
    }

    /// The slot to which a step leads.
    fn after(self, step: Step) -> Slot
        ensures { result ≡ slot_after self step }
    {
        match step {
            Step::Field(word) => self.field(word),
            Step::Index(n) => self.item(n),
        }
    }

    /// The slot to which a path leads from the top of the file.
    pub(crate) fn at(path: &[Step]) -> Slot
        ensures { result ≡ at_path path.now }
    {
        let mut slot = Slot::File;
        for step in path {
            slot = slot.after(*step);
        }
        slot
    }

    /// What it takes, as a phrase.
    pub(crate) fn takes(self) -> &'static str
        ensures { result.now ≡ taken_by self }
    {
        match self {
            Slot::File =>
                "an object with the fields `version` and `nodes`, and others if they are needed",
            Slot::Version => "the number 1 or 2",
            Slot::Nodes => "a list of nodes",
            Slot::NodeObject =>
                "an object with the fields `name` and `process`, and `vars` if the node has variables",
            Slot::SpotName =>
                "a name that no other node or switch has, of 1 to 16 letters, digits, `_` or `-`, the first a letter",
            Slot::Variables => "a list of variables, each `[NAME, \"int\"]` or `[NAME, \"bytes\"]`",
            Slot::Declaration => "`[NAME, \"int\"]` or `[NAME, \"bytes\"]`",
            Slot::VariableName =>
                "a name that no other variable of the node has, of 1 to 16 letters, digits, `_` or `-`, the first a letter",
            Slot::Kind => "`int` or `bytes`",
            Slot::Switches => "a list of switches",
            Slot::SwitchObject =>
                "an object with the fields `name` and `table`, and `delete` and `random` if they are needed",
            Slot::Table => "a list of rows, each `[LOWER, LIMIT, FIRST, LAST]`",
            Slot::Row =>
                "`[LOWER, LIMIT, FIRST, LAST]`, or in version 2 `[LOWER, LIMIT, \"portal\"]`",
            Slot::Header => "a number from 0 to 65535",
            Slot::Limit => "a number from 0 to 65536",
            Slot::Link => "the number of a link, from 0 to 31",
            Slot::Links => "a list of the numbers of links",
            Slot::Ranges => "a list of ranges, each `[LINK, LOWER, LIMIT]`",
            Slot::Range => "`[LINK, LOWER, LIMIT]`",
            Slot::Wires => "a list of wires",
            Slot::Wire =>
                "`[PLACE, LINK, PLACE, LINK]`, or in the short form `[PLACE, PLACE]` or `[PLACE, PLACE, COUNT]`",
            Slot::Spot => "the name of a node or a switch",
            Slot::SpotOrLink =>
                "the number of a link, from 0 to 31, or the name of a node or a switch, as the form of the wire wants",
            Slot::Vlinks => "a list of virtual links",
            Slot::VlinkObject => "an object with the fields `name`, `a` and `b`",
            Slot::VlinkName =>
                "a name that no other virtual link has, of 1 to 16 letters, digits, `_` or `-`, the first a letter",
            Slot::End => "`[NODE, LINK, BLOCK, [HEADER, ..]]`",
            Slot::Node => "the name of a node",
            Slot::Route => "a list of 1 to 4 headers",
            Slot::Channels => "a list of channels",
            Slot::ChannelObject =>
                "an object with the fields `name`, `kind`, `vlink` and `way`, or `name`, `kind` and `node` if the channel is inside a node",
            Slot::ChannelName =>
                "a name that no other channel has, of 1 to 16 letters, digits, `_` or `-`, the first a letter",
            Slot::Vlink => "the name of a virtual link",
            Slot::Way => "`ab` or `ba`",
            Slot::Process =>
                "`skip`, `stop`, or an object with one of the fields `set`, `out`, `in`, `stopch`, `seq`, `par`, `if`, `while`, `for`, `alt`",
            Slot::Assignment => "`[VARIABLE, VALUE]`",
            Slot::Output => "`[CHANNEL, VALUE]`",
            Slot::Input => "`[CHANNEL, VARIABLE]`",
            Slot::Channel => "the name of a channel",
            Slot::Variable =>
                "the name of a variable, of the kind of the channel if a message comes into it, and else of kind `int` if it is an index",
            Slot::Parts => "a list of processes",
            Slot::Branches => "a list of branches, each `[CONDITION, PROCESS]`",
            Slot::Branch => "`[CONDITION, PROCESS]`",
            Slot::Loop => "`[CONDITION, PROCESS]`",
            Slot::Replication => "`[VARIABLE, BASE, COUNT, PROCESS]`",
            Slot::Guards => "a list of guards, each `[CONDITION, CHANNEL, VARIABLE, PROCESS]`",
            Slot::Guard => "`[CONDITION, CHANNEL, VARIABLE, PROCESS]`",
            Slot::Condition =>
                "`true`, `false`, a comparison such as `[\"<\", \"x\", 3]`, or `[\"and\", C, C]`, `[\"or\", C, C]` or `[\"not\", C]`",
            Slot::Operand => "a condition or an expression, as the word in front of it wants",
            Slot::Expression =>
                "a whole number, the name of an int variable, an operation such as `[\"+\", \"x\", 1]`, or `[\"size\", VARIABLE]`",
            Slot::Value =>
                "a whole number, a variable or an operation such as `[\"+\", \"x\", 1]` if it is for an int, and a variable, `{\"text\":..}`, `{\"hex\":..}` or `{\"fill\":[BYTE, COUNT]}` if it is for bytes",
            Slot::BytesValue =>
                "a bytes variable, `{\"text\":..}`, `{\"hex\":..}` or `{\"fill\":[BYTE, COUNT]}`",
            Slot::Digits => "pairs of the digits 0 to 9 and a to f, for at most 65535 bytes",
            Slot::Characters => "a text of at most 65535 bytes",
            Slot::Filling => "`[BYTE, COUNT]`",
            Slot::Byte => "a number from 0 to 255",
            Slot::Count => "a number from 0 to 65535",
            Slot::Other => "another value",
        }
    }

    /// The fields that an object may have here.
    pub(crate) fn fields(self) -> &'static [Word]
        ensures { result.now ≡ fields_of self }
    {
        match self {
            Slot::File => &[
                Word::Version,
                Word::Nodes,
                Word::Switches,
                Word::Wires,
                Word::Vlinks,
                Word::Channels,
            ],
            Slot::NodeObject => &[Word::Name, Word::Vars, Word::Process],
            Slot::SwitchObject => &[Word::Name, Word::Table, Word::Delete, Word::Random],
            Slot::VlinkObject => &[Word::Name, Word::A, Word::B],
            Slot::ChannelObject => &[
                Word::Name,
                Word::Kind,
                Word::Vlink,
                Word::Way,
                Word::Node,
                Word::From,
                Word::To,
            ],
            Slot::Process => &[
                Word::Set,
                Word::Out,
                Word::In,
                Word::Stopch,
                Word::Seq,
                Word::Par,
                Word::If,
                Word::While,
                Word::For,
                Word::Alt,
            ],
            Slot::Value | Slot::BytesValue => &[Word::Hex, Word::Text, Word::Fill],
            _ => &[],
        }
    }
}
