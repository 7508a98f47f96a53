//! Files that are opened by their names.
ghost use Rattle.std.specs.Prelude.{MatchOption};

use std::fs::File;
use std::io::Read;

/// Opens files by their names. `holds` says which bytes the file of a name may have, and `fails` whether opening it may fail. An
/// implementation that says neither may open any file, or none.
pub trait NamedFiles {
    ghost use Rattle.std.specs.Prelude.{ℕ, List, Option, MatchOption, ⊤};

    /// A file that is open.
    type File: Read + Drop;

    ghost holds: { Self → List ℕ → Option (List ℕ) → Type 0 } = { λ _ _ _. ⊤ };

    ghost fails: { Self → List ℕ → Type 0 } = { λ _ _. ⊤ };

    /// Opens the file of a name for reading. The answer is None if it can't be opened.
    fn open_named(&self, name: &str) -> Option<Self::File>
        ensures { MatchOption result (fails self.now name.now)
            (λ file. holds self.now name.now (Self.File.remaining file)) };
}

impl NamedFiles for HostRuntime {
    type File = File;

    fn open_named(&self, name: &str) -> Option<File> {
        File::open(self, name).ok()
    }
}

/// The name of a file, and what opens it.
#[derive(Drop)]
pub struct NamedFile<'a, F> {
    /// What opens the file.
    pub files: &'a F,
    /// The file's name.
    pub name: &'a str,
}
