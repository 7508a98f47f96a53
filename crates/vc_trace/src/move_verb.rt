//! What a move of a process does, in a word.
ghost use Rattle.std.specs.Prelude.{◌≡◌, Some};
ghost use Rattle.vc_trace.specs.Private.Verbs.{move_word};

/// What a process does.
#[derive(Clone, Copy, Drop)]
pub(crate) enum MoveVerb {
    Offer,
    Want,
    Choose,
    Stopch,
    Inner,
    Quiet,
}

impl MoveVerb {
    /// The move that has this word, if there is one.
    pub(crate) fn of(word: &[u8]) -> Option<MoveVerb>
        ensures { (verb : MoveVerb) → word.now ≡ move_word verb → result ≡ Some verb }
    {
        match word {
            b"offer" => Some(MoveVerb::Offer),
            b"want" => Some(MoveVerb::Want),
            b"choose" => Some(MoveVerb::Choose),
            b"stopch" => Some(MoveVerb::Stopch),
            b"inner" => Some(MoveVerb::Inner),
            b"quiet" => Some(MoveVerb::Quiet),
            _ => None,
        }
    }
}
