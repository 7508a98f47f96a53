//! A plain sentence for each refusal, and what to change.
ghost use Rattle.std.specs.Prelude.{◌≡◌};
ghost use Rattle.vc_explain.specs.Sentences.{limit_sentence as sentence_of_limit, plan_sentence as sentence_of_plan, table_sentence as sentence_of_table};

use vc_labels::TableFault;
use vc_plan::{CheckRefused, LimitWord};

fn limit_sentence(word: LimitWord) -> &'static str
    ensures { result.now ≡ sentence_of_limit word }
{
    match word {
        LimitWord::Version =>
            "The version is not 1 or 2, or a network of version 1 has a portal or a random input. Write version 2.",
        LimitWord::Nodes => "The network has more than 32 nodes. Leave some out.",
        LimitWord::Switches => "The network has more than 32 switches. Leave some out.",
        LimitWord::Wires => "The network has more than 256 wires. Leave some out.",
        LimitWord::Vlinks => "The network has more than 256 virtual links. Leave some out.",
        LimitWord::Channels => "The network has more than 512 channels. Leave some out.",
        LimitWord::Vars =>
            "A node has more than 64 variables. Leave some out, or use one for more than one purpose.",
        LimitWord::Rows =>
            "The table of a switch has more than 64 rows. Join rows that lead to the same links.",
        LimitWord::Route => "A route has no header or more than 4. Write 1 to 4 headers.",
        LimitWord::Link =>
            "A link is greater than 3 at a node, or greater than 31 at a switch. Write a link that the place has.",
        LimitWord::Random =>
            "A random input has no value or more than 64, or goes past header 65,535, or its link has another one. Write 1 to 64 values, and each link once.",
        LimitWord::Depth =>
            "Processes nest more than 32 deep, or an expression or a condition more than 8. Write them with less nesting.",
        LimitWord::Parts =>
            "A node has more than 4,096 processes. Write fewer, with a loop where the same is done again.",
        LimitWord::Message =>
            "A message is longer than 65,535 bytes. Write a shorter one, or send it as more than one.",
        LimitWord::Number =>
            "A number names nothing that is there, or a variable is not of the kind that its place wants. Write the number of one that is there.",
        LimitWord::Name =>
            "A name is not of 1 to 16 letters, digits, _ and -, the first a letter. Write one that is.",
    }
}

fn table_sentence(fault: TableFault) -> &'static str
    ensures { result.now ≡ sentence_of_table fault }
{
    match fault {
        TableFault::NotRising =>
            "A row of the table has no header in it, or goes past header 65,535, or begins before the limit of the row before it. Let each row begin where the row before it has its limit.",
        TableFault::Gap =>
            "A row of the table begins after the limit of the row before it. Let each row begin where the row before it has its limit.",
        TableFault::BadLink =>
            "A row of the table leads to a link that is on no wire, or from a link to a lesser one. Write links that have wires, or add the wires.",
    }
}

/// The sentence for a plan that is refused.
pub(crate) fn plan_sentence(why: &CheckRefused) -> &'static str
    ensures { result.now ≡ sentence_of_plan why.now }
{
    match why {
        CheckRefused::Limit(word) => limit_sentence(*word),
        CheckRefused::PortTwice(_) =>
            "A link is at two ends of wires. Let each link be at one end of one wire, and use another link.",
        CheckRefused::PortMissing(_) =>
            "A virtual link sends by a link that is on no wire. Add a wire to this link, or send by another link.",
        CheckRefused::BlockTwice { .. } =>
            "Two ends of virtual links have the same block number at one node. Give each end at the node a block number of its own.",
        CheckRefused::Table { switch: _, fault } => table_sentence(*fault),
        CheckRefused::NoInterval(_) =>
            "A packet comes to a switch with a front header that is in no row of its table. Add a row for the header, or write another route.",
        CheckRefused::WrongEnd(_) =>
            "A packet comes to another node than the other end of its virtual link, or not with the block number of that end alone. Change the route, a table, a wire or a list `delete`.",
        CheckRefused::StackEmpty(_) =>
            "A packet has no header left where one is needed. Write one more header in the route, or delete fewer on the way.",
        CheckRefused::StackFull(_) =>
            "A random header would be the seventh of a packet. Delete headers on the way, or let fewer inputs put random ones.",
        CheckRefused::Hops(_) =>
            "A packet can go through more than 32 switches. Change the tables that send it round, or shorten the way.",
        CheckRefused::SameNode(_) =>
            "Both ends of a virtual link are on one node. Move one end to another node, or put its channels inside the node.",
        CheckRefused::Channel(_) =>
            "The channel is on a way that another channel has already, or a process uses it at the wrong end or with the wrong kind. Give it a way of its own, or correct its use.",
        CheckRefused::Usage { .. } =>
            "The process uses a channel or a variable in parallel as occam does not allow, or changes the index of a replicated SEQ. Let one part of a PAR use it, or use another one.",
        CheckRefused::Memory => "",
    }
}
