//! The words of a line.
ghost use Rattle.std.specs.Prelude.{◌≡◌, ◌≢◌, ◌<◌, ◌≤◌, ℕ, List, ◌∷◌, length, slice_index};
ghost use Rattle.vc_trace.specs.EventText.{spaced};
ghost use Rattle.vc_trace.specs.Private.Words.{IsWord};

/// The rest of a line, word by word. A space is in front of each word.
#[derive(Clone, Copy, Drop)]
pub(crate) struct Words<'a> {
    pub rest: &'a [u8],
}

/// How many bytes are in front of the first space.
fn word_len(text: &[u8]) -> usize
    ensures within { result ≤ length text.now }
    ensures before { (k : ℕ) → k < result → slice_index text.now k ≢ 32 }
    ensures space { result < length text.now → slice_index text.now result ≡ 32 }
{
    for (n, byte) in text.iter().enumerate() {
        if *byte == b' ' {
            return n;
        }
    }
    text.len()
}

impl<'a> Words<'a> {
    /// The next word; no bytes where there is none.
    pub(crate) fn next(&mut self) -> &'a [u8]
        ensures word { (word : List ℕ) (words : List (List ℕ)) → IsWord word →
            self.old.rest.now ≡ spaced (word ∷ words) → result.now ≡ word }
        ensures rest { (word : List ℕ) (words : List (List ℕ)) → IsWord word →
            self.old.rest.now ≡ spaced (word ∷ words) → self.new.rest.now ≡ spaced words }
    {
        let Some((_, text)) = self.rest.split_first() else {
            return &[];
        };
        let (word, rest) = text.split_at(word_len(text));
        self.rest = rest;
        word
    }
}
