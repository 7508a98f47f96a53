//! A list of events.

ghost use Rattle.std.specs.Prelude.{◌≡◌, [], ◌∷◌, ◌++◌, length, ◌↔◌, IsTrue, IfOk, OnOk, OnErr};
ghost use Rattle.vc_actor.specs.declared.act.Act.TheVariants.{Proc, Take};
ghost use Rattle.vc_text.specs.EventLog.{act_of, words_of, moves_of, events_left};

use crate::entry::{Brief, Entry};
use crate::events::Events;
use sqlite_items::Items;
use std::alloc::{AllocError, Global};
use std::marker::Model;
use vc_core::{Act, Event};
use vc_occam::Move;

/// A list of events, in the order in which they were made. Each takes six bytes, a take four more for its word, and a move that is no
/// step without a communication twelve more, where an [`Event`] takes twenty.
#[derive(Debug, Drop)]
pub struct EventLog {
    entries: Items<Entry>,
    words: Items<u32>,
    moves: Items<Move>,
}

impl Model for EventLog {
    ghost use Rattle.std.specs.Prelude.{List};
    ghost use Rattle.vc_core.specs.declared.event.Event.{Event};
    ghost use Rattle.vc_text.specs.EventLog.{Fit, events_of};

    ghost Value = { List Event };

    ghost view = { λ log. events_of log.entries log.words log.moves };

    ghost invariant = { λ log. Fit log.entries log.words log.moves };
}

impl EventLog {
    /// No event.
    pub fn new(alloc: Global) -> EventLog
        ensures { result ≡ [] }
    {
        EventLog {
            entries: Items::new(alloc),
            words: Items::new(alloc),
            moves: Items::new(alloc),
        }
    }

    /// How many events it has.
    pub fn len(&self) -> usize
        ensures { result ≡ length self.now }
    {
        self.entries.len()
    }

    /// Whether it has none.
    pub fn is_empty(&self) -> bool
        ensures { IsTrue result ↔ (self.now ≡ []) }
    {
        self.entries.is_empty()
    }

    /// An event joins it as the last. It fails only when out of memory, and the list is then as it was.
    #[inline(always)]
    pub fn push(&mut self, event: Event) -> Result<(), AllocError>
        ensures ok { OnOk result (self.new ≡ self.old ++ event ∷ []) }
        ensures err { OnErr result (self.new ≡ self.old) }
    {
        let Event { actor, act } = event;
        match act {
            Act::Proc(Move::Quiet { site }) => self.enter(actor, Brief::Quiet { site }),
            Act::Proc(made) => self.enter_move(actor, made),
            Act::Take { link, word } => self.enter_take(actor, link, word),
            Act::Put { link } => self.enter(actor, Brief::Put { link }),
            Act::Route { input, output } => self.enter(actor, Brief::Route { input, output }),
            Act::Fct { link } => self.enter(actor, Brief::Fct { link }),
            Act::Pass { link } => self.enter(actor, Brief::Pass { link }),
        }
    }

    // An entry that needs no word and no move.
    #[inline(always)]
    fn enter(&mut self, actor: u8, brief: Brief) -> Result<(), AllocError>
        requires words { words_of brief ≡ 0 }
        requires moves { moves_of brief ≡ 0 }
        ensures ok { OnOk result
            (self.new ≡ self.old ++ record { actor = actor; act = act_of brief [] [] } ∷ []) }
        ensures err { OnErr result (self.new ≡ self.old) }
    {
        self.entries.push(Entry { actor, brief })?;
        Ok(())
    }

    // A take, with its word.
    #[inline(always)]
    fn enter_take(&mut self, actor: u8, link: u8, word: u32) -> Result<(), AllocError>
        ensures ok { OnOk result
            (self.new ≡ self.old ++ record { actor = actor; act = Take link word } ∷ []) }
        ensures err { OnErr result (self.new ≡ self.old) }
    {
        self.words.push(word)?;
        let brief = Brief::Take { link };
        if let Err(fault) = self.entries.push(Entry { actor, brief }) {
            self.words.pop();
            return Err(fault);
        }
        Ok(())
    }

    // A move that communicates.
    fn enter_move(&mut self, actor: u8, made: Move) -> Result<(), AllocError>
        ensures ok { OnOk result
            (self.new ≡ self.old ++ record { actor = actor; act = Proc made } ∷ []) }
        ensures err { OnErr result (self.new ≡ self.old) }
    {
        self.moves.push(made)?;
        let brief = Brief::Move;
        if let Err(fault) = self.entries.push(Entry { actor, brief }) {
            self.moves.pop();
            return Err(fault);
        }
        Ok(())
    }

    /// Goes through its events, in order.
    pub fn iter(&self) -> Events<'_>
        ensures { events_left result ≡ self.now }
    {
        Events {
            entries: self.entries.as_slice(),
            words: self.words.as_slice(),
            moves: self.moves.as_slice(),
        }
    }

    /// Its events, in order. Where memory is short it answers so, and stays.
    pub fn to_vec(&self, alloc: Global) -> Result<Vec<Event>, AllocError>
        ensures { IfOk result (λ events. events.items ≡ self.now) }
    {
        let mut events = Vec::new(alloc);
        let mut words = self.words.as_slice();
        let mut moves = self.moves.as_slice();
        let entries = self.entries.as_slice();
        for entry in entries {
            events.push(entry.event(words, moves))?;
            words = entry.brief.words_left(words);
            moves = entry.brief.moves_left(moves);
        }
        Ok(events)
    }
}
