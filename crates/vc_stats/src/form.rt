//! How counts are written.
ghost use Rattle.std.specs.Prelude.{◌≡◌};
ghost use Rattle.vc_stats.specs.Fields.{text_in};

/// How the counts of a run are written.
#[derive(Clone, Copy, Debug, PartialEq, Eq, Drop)]
pub enum Form {
    /// As lines of words.
    Lines,
    /// As JSON.
    Json,
}

impl Form {
    /// The text for lines, or that for JSON.
    pub(crate) fn text(self, lines: &'static [u8], json: &'static [u8]) -> &'static [u8]
        ensures { result.now ≡ text_in self lines.now json.now }
    {
        match self {
            Form::Lines => lines,
            Form::Json => json,
        }
    }
}
