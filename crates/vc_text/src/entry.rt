//! What a log keeps of an event.
ghost use Rattle.std.specs.Prelude.{◌≡◌};
ghost use Rattle.vc_text.specs.EventLog.{act_of, first_word, first_move, rest_of, words_left, moves_left};

use vc_core::{Act, Event};
use vc_occam::Move;

/// An event, but for the word of a take and for a move of a process other than a step without a communication.
#[derive(Clone, Copy, Debug, PartialEq, Eq, Drop)]
pub(crate) struct Entry {
    /// The actor's number.
    pub(crate) actor: u8,
    /// What is kept of its act.
    pub(crate) brief: Brief,
}

impl Entry {
    /// The event, of which these are the next words and moves.
    pub(crate) fn event(&self, words: &[u32], moves: &[Move]) -> Event
        ensures { result ≡
            record { actor = self.now.actor; act = act_of self.now.brief words.now moves.now } }
    {
        Event {
            actor: self.actor,
            act: self.brief.act(words, moves),
        }
    }
}

/// What an entry keeps of an act.
#[derive(Clone, Copy, Debug, PartialEq, Eq, Drop)]
pub(crate) enum Brief {
    /// A step without a communication.
    Quiet {
        /// The site that makes it.
        site: u16,
    },
    /// Any other move of a process: the next of the log's moves.
    Move,
    /// A token is taken, with the next of the log's words.
    Take {
        /// The link.
        link: u8,
    },
    /// A token is put.
    Put {
        /// The link.
        link: u8,
    },
    /// A packet is bound to an output.
    Route {
        /// The input link.
        input: u8,
        /// The output link.
        output: u8,
    },
    /// A flow control token is put.
    Fct {
        /// The link.
        link: u8,
    },
    /// A token passes on.
    Pass {
        /// The link.
        link: u8,
    },
}

impl Brief {
    // The act, of which these are the next words and moves.
    fn act(self, words: &[u32], moves: &[Move]) -> Act
        ensures { result ≡ act_of self words.now moves.now }
    {
        match self {
            Brief::Quiet { site } => Act::Proc(Move::Quiet { site }),
            Brief::Move => Act::Proc(first_move(moves)),
            Brief::Take { link } => Act::Take {
                link,
                word: first_word(words),
            },
            Brief::Put { link } => Act::Put { link },
            Brief::Route { input, output } => Act::Route { input, output },
            Brief::Fct { link } => Act::Fct { link },
            Brief::Pass { link } => Act::Pass { link },
        }
    }

    /// The words that are left after it.
    pub(crate) fn words_left(self, words: &[u32]) -> &[u32]
        ensures { result.now ≡ words_left self words.now }
    {
        match self {
            Brief::Take { .. } => rest_of(words),
            _ => words,
        }
    }

    /// The moves that are left after it.
    pub(crate) fn moves_left(self, moves: &[Move]) -> &[Move]
        ensures { result.now ≡ moves_left self moves.now }
    {
        match self {
            Brief::Move => rest_of(moves),
            _ => moves,
        }
    }
}

// The next word; 0 where none is left.
fn first_word(words: &[u32]) -> u32
    ensures { result ≡ first_word words.now }
{
    match words.first() {
        Some(word) => *word,
        None => 0,
    }
}

// The next move; a step of site 0 where none is left.
fn first_move(moves: &[Move]) -> Move
    ensures { result ≡ first_move moves.now }
{
    match moves.first() {
        Some(made) => *made,
        None => Move::Quiet { site: 0 },
    }
}

// What is left of a list behind its first.
fn rest_of<T>(items: &[T]) -> &[T]
    ensures { result.now ≡ rest_of items.now }
{
    match items.split_first() {
        Some((_, rest)) => rest,
        None => items,
    }
}
