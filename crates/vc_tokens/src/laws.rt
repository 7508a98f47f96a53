//! Laws of spellings. A law is a function that does nothing, whose contract is the law.
ghost use Rattle.vc_tokens.specs.Laws.{ReadingsAreOne, CuttingsAgree, CuttingsBreakAlike, BreaksAreOne};

/// A stream of tokens is read in one way only.
pub fn readings_are_one()
    ensures { ReadingsAreOne }
{}

/// However a stream is cut into feeds, they give the packets of the stream.
pub fn cuttings_agree()
    ensures { CuttingsAgree }
{}

/// However a stream is cut into feeds, the feed that is refused is refused at the first token that breaks the stream, and the packets
/// before it are those of all feeds.
#[tactic(auto, using(crate::proofs::Breaks::cut_broken))]
pub fn cuttings_break_alike()
    ensures { CuttingsBreakAlike }
{}

/// A stream that is read has no token that breaks the spelling, and in any other stream one token is the first to break it, and for
/// one reason.
pub fn breaks_are_one()
    ensures { BreaksAreOne }
{}
