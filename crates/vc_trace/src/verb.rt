//! What an event does, in a word.
ghost use Rattle.std.specs.Prelude.{◌≡◌, Some};
ghost use Rattle.vc_trace.specs.Private.Verbs.{verb_word};

/// What an actor does.
#[derive(Clone, Copy, Drop)]
pub(crate) enum Verb {
    Proc,
    Take,
    Put,
    Route,
    Fct,
    Pass,
}

impl Verb {
    /// The act that has this word, if there is one.
    pub(crate) fn of(word: &[u8]) -> Option<Verb>
        ensures { (verb : Verb) → word.now ≡ verb_word verb → result ≡ Some verb }
    {
        match word {
            b"proc" => Some(Verb::Proc),
            b"take" => Some(Verb::Take),
            b"put" => Some(Verb::Put),
            b"route" => Some(Verb::Route),
            b"fct" => Some(Verb::Fct),
            b"pass" => Some(Verb::Pass),
            _ => None,
        }
    }
}
