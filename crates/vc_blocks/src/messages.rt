//! The messages of a log, as a channel shows them.
ghost use Rattle.std.specs.Prelude.{◌≡◌, ◌↔◌, [], length, slice_get, IsTrue};
ghost use Rattle.std.specs.Iterator.{YieldsFirstRef, item_count};
ghost use Rattle.std.specs.Option.{option_copied};
ghost use Rattle.vc_blocks.specs.Messages.{listed, listed_left};

use crate::message_log::MessageLog;

/// The messages of a log, the first one first, or none.
#[derive(Clone, Copy, Drop)]
pub struct Messages<'a> {
    log: Option<&'a MessageLog>,
}

impl<'a> Messages<'a> {
    /// No messages.
    pub fn none() -> Messages<'a>
        ensures { listed result ≡ [] }
    {
        Messages { log: None }
    }

    /// The messages of a log.
    pub fn of(log: &'a MessageLog) -> Messages<'a>
        ensures { listed result ≡ log.now }
    {
        Messages { log: Some(log) }
    }

    /// How many messages.
    pub fn len(&self) -> usize
        ensures { result ≡ length (listed self.now) }
    {
        match self.log {
            Some(log) => log.len(),
            None => 0,
        }
    }

    /// Whether there are none.
    pub fn is_empty(&self) -> bool
        ensures { IsTrue result ↔ (listed self.now ≡ []) }
    {
        self.len() == 0
    }

    /// The message at a place.
    pub fn get(&self, at: usize) -> Option<&'a [u8]>
        ensures { option_copied result ≡ slice_get (listed self.now) at }
    {
        self.log?.get(at)
    }

    /// Goes through the messages, the first one first.
    pub fn iter(&self) -> MessagesIter<'a>
        ensures { listed_left result ≡ listed self.now }
    {
        MessagesIter {
            messages: *self,
            at: 0,
        }
    }
}

/// The messages of a log that are still to come, in order.
#[derive(Drop)]
pub struct MessagesIter<'a> {
    messages: Messages<'a>,
    at: usize,
}

impl<'a> Iterator for MessagesIter<'a> {
    type Item = &'a [u8];

    ghost next_gives = { YieldsFirstRef listed_left };

    ghost remaining = { item_count listed_left };

    fn next(&mut self) -> Option<&'a [u8]> {
        if self.at >= self.messages.len() {
            return None;
        }
        let message = self.messages.get(self.at);
        self.at += 1;
        message
    }
}
