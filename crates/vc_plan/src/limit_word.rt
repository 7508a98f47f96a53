//! The limits of a plan.
use thiserror::Error;

/// What is over its limit, or no number of the plan, in the order in which the checker looks.
#[derive(Clone, Copy, Debug, PartialEq, Eq, Drop, Error)]
pub enum LimitWord {
    /// The version is not 1 or 2, or a plan of version 1 has a portal or a random input.
    #[error("the version is not 1 or 2, or version 1 has a portal or a random input")]
    Version,
    /// More than 32 nodes.
    #[error("there are more than 32 nodes")]
    Nodes,
    /// More than 32 switches.
    #[error("there are more than 32 switches")]
    Switches,
    /// More than 256 wires.
    #[error("there are more than 256 wires")]
    Wires,
    /// More than 256 virtual links.
    #[error("there are more than 256 virtual links")]
    Vlinks,
    /// More than 512 channels.
    #[error("there are more than 512 channels")]
    Channels,
    /// More than 64 variables at a node.
    #[error("a node has more than 64 variables")]
    Vars,
    /// More than 64 rows in a table.
    #[error("a table has more than 64 rows")]
    Rows,
    /// A route that isn't of 1 to 4 headers.
    #[error("a route is not of 1 to 4 headers")]
    Route,
    /// A link over 3 at a node or over 31 at a switch.
    #[error("a link is over 3 at a node, or over 31 at a switch")]
    Link,
    /// A random range without a value, with more than 64, or over 65,536; or an input with two ranges.
    #[error("a random range is not of 1 to 64 headers, or stands beside another of its link")]
    Random,
    /// A process deeper than 32, or an expression or condition deeper than 8.
    #[error("a process, an expression or a condition is too deep")]
    Depth,
    /// More than 4,096 processes written in a node.
    #[error("a node has more than 4096 processes")]
    Parts,
    /// A message over 65,535 bytes.
    #[error("a message is over 65535 bytes")]
    Message,
    /// A number that names nothing, or a variable of another kind than its place wants.
    #[error("a number names nothing, or a variable of another kind")]
    Number,
    /// A name of another form.
    #[error("a name is of another form")]
    Name,
}
