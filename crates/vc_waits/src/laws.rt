//! What is proved of the words for what blocks a process.
ghost use Rattle.vc_waits.specs.Meaning.{WordsAreSo};

/// What is shown of a part of a process that does not go on by itself is so. An output or an input is among the moves of the process, or
/// waits for its other end, and a guard is among the moves. A part that has not begun and is shown as stopped makes no step. A part that
/// is not shown goes on by itself: a step without a communication, or a stop of a channel, is among its moves.
#[tactic(auto, using(crate::proofs::Meanings::words_are_so))]
pub fn words_are_so()
    ensures { WordsAreSo }
{}
