//! What a process comes to.
ghost use Rattle.std.specs.Prelude.{◌≡◌};
ghost use Rattle.vc_occam.specs.Private.Frames.{has_ended};

/// What a process comes to as it begins, or by what one of its sites does: it ends, or it begins with something, whatever its
/// variables hold.
#[derive(Clone, Copy, Drop)]
pub(crate) enum Outcome {
    /// Nothing remains.
    Ended,
    /// It begins with nothing.
    Nothing,
    /// It begins with one step without a communication, which assigns no bytes.
    Quiet { site: u16 },
    /// What it begins with is to be looked for.
    Other,
}

impl Outcome {
    /// Whether nothing remains.
    pub(crate) fn has_ended(&self) -> bool
        ensures { result ≡ has_ended self.now }
    {
        matches!(self, Outcome::Ended)
    }
}
