//! The words of the network file's format.
ghost use Rattle.std.specs.Prelude.{◌≡◌};
ghost use Rattle.vc_reader.specs.Words.{word_text};

/// A field of an object of the network file, or the word of a process.
#[derive(Clone, Copy, Debug, PartialEq, Eq, Drop)]
pub enum Word {
    Version,
    Nodes,
    Switches,
    Wires,
    Vlinks,
    Channels,
    Name,
    Vars,
    Process,
    Table,
    Delete,
    Random,
    A,
    B,
    Kind,
    Vlink,
    Way,
    Node,
    From,
    To,
    Set,
    Out,
    In,
    Stopch,
    Seq,
    Par,
    If,
    While,
    For,
    Alt,
    Hex,
    Text,
    Fill,
}

impl Word {
    /// The word as it is in the file.
    pub fn text(self) -> &'static str
        ensures { result.now ≡ word_text self }
    {
        match self {
            Word::Version => "version",
            Word::Nodes => "nodes",
            Word::Switches => "switches",
            Word::Wires => "wires",
            Word::Vlinks => "vlinks",
            Word::Channels => "channels",
            Word::Name => "name",
            Word::Vars => "vars",
            Word::Process => "process",
            Word::Table => "table",
            Word::Delete => "delete",
            Word::Random => "random",
            Word::A => "a",
            Word::B => "b",
            Word::Kind => "kind",
            Word::Vlink => "vlink",
            Word::Way => "way",
            Word::Node => "node",
            Word::From => "from",
            Word::To => "to",
            Word::Set => "set",
            Word::Out => "out",
            Word::In => "in",
            Word::Stopch => "stopch",
            Word::Seq => "seq",
            Word::Par => "par",
            Word::If => "if",
            Word::While => "while",
            Word::For => "for",
            Word::Alt => "alt",
            Word::Hex => "hex",
            Word::Text => "text",
            Word::Fill => "fill",
        }
    }
}
