//! Why a network file is refused.
ghost use Rattle.std.specs.Prelude.{◌≡◌};

use crate::fault::Why;
use crate::path::Path;
use thiserror::Error;

/// Why a network file is refused. Each path leads to the first fault, in the order in which the file is read.
#[derive(Debug, Drop, Error)]
pub enum ReadRefused {
    /// The text is no JSON.
    #[error("the text is no JSON")]
    Json,
    /// A field is missing.
    #[error("a field is missing")]
    Missing(Path),
    /// A value is of another kind than its place wants: also a list of another length, a text that is none of the words that may
    /// be there, a text that is no name, and a name that was given before.
    #[error("a value is of another kind than its place wants")]
    Kind(Path),
    /// A whole number is out of its range, or bytes are too long.
    #[error("a number is out of its range, or bytes are too long")]
    Range(Path),
    /// A field, a word or a name is unknown.
    #[error("a field or a name is unknown")]
    Unknown(Path),
    /// There was no memory.
    #[error("there is no memory")]
    Memory,
}

impl ReadRefused {
    ghost use Rattle.vc_reader.specs.NetworkText.{refusal};

    /// The refusal for a fault at a path.
    pub(crate) fn at(why: Why, path: Path) -> ReadRefused
        ensures { result ≡ refusal why path }
    {
        match why {
            Why::Missing => ReadRefused::Missing(path),
            Why::Kind => ReadRefused::Kind(path),
            Why::Range => ReadRefused::Range(path),
            Why::Unknown => ReadRefused::Unknown(path),
        }
    }
}
