//! Going through a list of events.
ghost use Rattle.std.specs.Iterator.{YieldsFirst, item_count};
ghost use Rattle.vc_text.specs.EventLog.{events_left};

use crate::entry::Entry;
use vc_core::Event;
use vc_occam::Move;

/// The events of a log that are still to come, in order.
#[derive(Drop)]
pub struct Events<'a> {
    pub(crate) entries: &'a [Entry],
    pub(crate) words: &'a [u32],
    pub(crate) moves: &'a [Move],
}

impl Iterator for Events<'_> {
    type Item = Event;

    ghost next_gives = { YieldsFirst events_left };

    ghost remaining = { item_count events_left };

    fn next(&mut self) -> Option<Event> {
        let (entry, entries) = self.entries.split_first()?;
        let event = entry.event(self.words, self.moves);
        self.words = entry.brief.words_left(self.words);
        self.moves = entry.brief.moves_left(self.moves);
        self.entries = entries;
        Some(event)
    }
}
