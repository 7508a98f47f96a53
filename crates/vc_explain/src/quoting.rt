//! Whether a byte of a JSON text is in a string.
ghost use Rattle.std.specs.Prelude.{◌≡◌};
ghost use Rattle.vc_explain.specs.Parts.{after as quoting_after, is_outside as is_outside_of};

/// Where a byte is.
#[derive(Clone, Copy, Debug, PartialEq, Eq, Drop)]
pub enum Quoting {
    /// Outside of strings.
    Outside,
    /// In a string.
    Inside,
    /// In a string, after a backslash.
    Escaped,
}

impl Quoting {
    /// Where the next byte is.
    pub(crate) fn after(self, byte: u8) -> Quoting
        ensures { result ≡ quoting_after self byte }
    {
        match self {
            Quoting::Outside => if byte == b'"' {
                Quoting::Inside
            } else {
                Quoting::Outside
            },
            Quoting::Inside => match byte {
                b'"' => Quoting::Outside,
                b'\\' => Quoting::Escaped,
                _ => Quoting::Inside,
            },
            Quoting::Escaped => Quoting::Inside,
        }
    }

    /// Whether the byte is outside of strings.
    pub(crate) fn is_outside(self) -> bool
        ensures { result ≡ is_outside_of self }
    {
        matches!(self, Quoting::Outside)
    }
}
