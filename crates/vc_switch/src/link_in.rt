//! The receiving end of a switch's link: tokens wait in its buffer under credit, and pass on to the packet that is arriving, which
//! may leave by an output while it arrives.
ghost use Rattle.std.specs.Prelude.{◌≡◌, ◌≢◌, ◌<◌, ◌≤◌, ◌+◌, [], ◌∷◌, ◌++◌, length, slice_get, ◌↔◌, Some, None, IsTrue, IfOk};
ghost use Rattle.std.specs.Bool.{OnTrue, OnFalse};
ghost use Rattle.vc_tokens.specs.CodeTokens.{token};
ghost use Rattle.vc_tokens.specs.Tokens.{Byte, EndMark};
ghost use Rattle.vc_credit.specs.Ends.{received, HasRoom, Grants, IsFront, Passes};
ghost use Rattle.vc_switch.specs.declared.front.Front.{Front};
ghost use Rattle.vc_switch.specs.Front.{front_of};
ghost use Rattle.vc_switch.specs.Private.Front.{HasFront};
ghost use Rattle.vc_switch.specs.Switch.{drawn, headed};
ghost use Rattle.vc_switch.specs.State.{interval_of, IsRange};
ghost use Rattle.vc_switch.specs.Private.Opening.{new_link_in};
ghost use Rattle.vc_switch.specs.Private.SwitchView.{has_next};

use crate::front::find_front;
use crate::random_range::{RandomRange, draw};
use std::alloc::Global;
use vc_credit::Receiver;
use vc_labels::Table;
use vc_packets::{Mark, Memory};
use vc_tokens::{Assembler, Token};

/// By which output an input's packet leaves, and how much of it has.
#[derive(Clone, Copy, Drop)]
pub(crate) struct Bound {
    /// The output link.
    pub(crate) output: u8,
    /// At which byte of the packet what leaves begins: headers of portals are left out, and a deleted header.
    pub(crate) from: usize,
    /// How many bytes have been put.
    pub(crate) sent: usize,
}

/// The receiving end of a switch's link: the buffer under credit, and the packet that is arriving, which may be leaving already.
#[derive(Drop)]
pub(crate) struct LinkIn {
    /// The buffer of the tokens that have come.
    pub(crate) receiver: Receiver,
    /// The word of the latest take.
    pub(crate) word: u32,
    /// The bytes passed of the packet, after the random header.
    pub(crate) got: Assembler,
    /// The packet's mark, once it has come whole.
    pub(crate) mark: Option<Mark>,
    /// By which output it leaves.
    pub(crate) bound: Option<Bound>,
}

impl LinkIn {
    /// An empty end for packets of at most `limit` bytes.
    pub(crate) fn new(alloc: Global, limit: usize) -> Result<LinkIn, Memory>
        ensures { IfOk result (λ x. x ≡ new_link_in limit) }
    {
        let receiver = Receiver::new(alloc)?;
        let got = Assembler::new(alloc, limit)?;
        Ok(LinkIn {
            receiver,
            word: 0,
            got,
            mark: None,
            bound: None,
        })
    }

    /// The word of a take is kept.
    pub(crate) fn draw(&mut self, word: u32)
        ensures { self.new ≡ record self.old { word = word } }
    {
        self.word = word;
    }

    /// A token comes with a word: it goes to the buffer, where a place was promised, and else is dropped.
    pub(crate) fn accept(&mut self, came: Token, word: u32) -> bool
        ensures due { IsTrue result ↔ (0 < self.old.receiver.promised) }
        ensures added { OnTrue result
            (self.new ≡
            record self.old
            { receiver = received self.old.receiver (token came); word = word }) }
        ensures dropped { OnFalse result (self.new ≡ record self.old { word = word }) }
    {
        self.draw(word);
        let is_due = self.receiver.is_promised();
        if is_due {
            self.receiver.accept(came);
        }
        is_due
    }

    /// Whether an FCT may be sent: eight places are free and not promised.
    pub(crate) fn may_grant(&self) -> bool
        ensures { IsTrue result ↔ HasRoom self.now.receiver }
    {
        self.receiver.may_grant()
    }

    /// An FCT is sent: eight places more are promised.
    pub(crate) fn grant(&mut self)
        requires { HasRoom self.old.receiver }
        ensures grants { Grants self.old.receiver self.new.receiver }
        ensures rest { self.new ≡ record self.old { receiver = self.new.receiver } }
    {
        self.receiver.grant();
    }

    /// Whether a token may pass: one waits, and no packet is whole.
    pub(crate) fn may_pass(&self) -> bool
        ensures { IsTrue result ↔ ((self.now.mark ≡ None) × (self.now.receiver.buffer ≢ [])) }
    {
        self.mark.is_none() && !self.receiver.is_empty()
    }

    // The random header goes before a packet's first token.
    fn begin(&mut self, range: Option<RandomRange>)
        requires limit { 2 ≤ self.old.got.limit }
        requires range { IsRange range }
        ensures { self.new ≡
            record self.old {
              got = record self.old.got
                  { passed = headed (drawn (interval_of range) self.old.word) self.old.got.passed };
            } }
    {
        if self.got.is_empty() {
            if let Some(header) = draw(range, self.word) {
                let [high, low] = header.to_be_bytes();
                self.got.push(high);
                self.got.push(low);
            }
        }
    }

    /// The byte at the front passes, after the header that is drawn for the packet: it joins the packet, or is dropped where the
    /// packet has as many as it may.
    pub(crate) fn pass_byte(&mut self, range: Option<RandomRange>, byte: u8) -> bool
        requires limit { 2 ≤ self.old.got.limit }
        requires range { IsRange range }
        requires front { IsFront self.old.receiver (Byte byte) }
        ensures front { Passes self.old.receiver (Byte byte) self.new.receiver }
        ensures room { IsTrue result ↔
            (length (headed (drawn (interval_of range) self.old.word) self.old.got.passed) <
            self.old.got.limit) }
        ensures added { OnTrue result
            (self.new ≡
            record self.old {
              receiver = self.new.receiver;
              got = record self.old.got {
                passed = headed (drawn (interval_of range) self.old.word)
                    self.old.got.passed ++ byte ∷ [];
              };
            }) }
        ensures dropped { OnFalse result
            (self.new ≡
            record self.old {
              receiver = self.new.receiver;
              got = record self.old.got
                  { passed = headed (drawn (interval_of range) self.old.word) self.old.got.passed };
            }) }
    {
        let _byte = self.receiver.pop();
        self.begin(range);
        self.got.push(byte)
    }

    /// The mark at the front passes, and the packet is whole. It is dropped where it has no group.
    pub(crate) fn pass_mark(
        &mut self,
        table: &Table,
        range: Option<RandomRange>,
        mark: Mark,
    ) -> bool
        requires limit { 2 ≤ self.old.got.limit }
        requires range { IsRange range }
        requires front { IsFront self.old.receiver (EndMark mark) }
        requires bound { self.old.bound ≢ None →
            (front : Front) × HasFront table.now self.old.got.passed front }
        ensures front { Passes self.old.receiver (EndMark mark) self.new.receiver }
        ensures group { OnTrue result
            ((front : Front) ×
            HasFront table.now
            (headed (drawn (interval_of range) self.old.word) self.old.got.passed) front) }
        ensures none { OnFalse result
            (front_of table.now
            (headed (drawn (interval_of range) self.old.word) self.old.got.passed) ≡ None) }
        ensures whole { OnTrue result
            (self.new ≡
            record self.old {
              receiver = self.new.receiver;
              got = record self.old.got
                  { passed = headed (drawn (interval_of range) self.old.word) self.old.got.passed };
              mark = Some mark;
            }) }
        ensures dropped { OnFalse result
            (self.new ≡
            record self.old
            { receiver = self.new.receiver; got = record self.old.got { passed = [] } }) }
    {
        let _mark = self.receiver.pop();
        self.begin(range);
        let has_group = self.bound.is_some() || find_front(table, self.got.bytes()).is_some();
        if has_group {
            self.mark = Some(mark);
        } else {
            self.got.clear();
        }
        has_group
    }

    /// Whether the packet is bound to no output.
    pub(crate) fn is_idle(&self) -> bool
        ensures { IsTrue result ↔ (self.now.bound ≡ None) }
    {
        self.bound.is_none()
    }

    /// Whether a header of a packet is there that is bound to no output.
    pub(crate) fn waits(&self) -> bool
        ensures { IsTrue result ↔
            ((self.now.bound ≡ None) × (2 ≤ length self.now.got.passed)) }
    {
        self.is_idle() && self.got.len() >= 2
    }

    /// The packet is bound to an output, to leave from this byte on.
    pub(crate) fn bind(&mut self, output: u8, from: usize)
        ensures { self.new ≡
            record self.old { bound = Some (record { output = output; from = from; sent = 0 }) } }
    {
        self.bound = Some(Bound {
            output,
            from,
            sent: 0,
        });
    }

    /// The next byte to put of the packet, which is bound so.
    pub(crate) fn next_byte(&self, bound: Bound) -> Option<u8>
        requires { bound.from + bound.sent ≤ length self.now.got.passed }
        ensures { result ≡ slice_get self.now.got.passed (bound.from + bound.sent) }
    {
        let bytes = self.got.bytes();
        bytes.get(bound.from + bound.sent).copied()
    }

    /// Whether there is a token to put of the packet, which is bound so: a byte, or its mark.
    pub(crate) fn has_next(&self, bound: Bound) -> bool
        requires { bound.from + bound.sent ≤ length self.now.got.passed }
        ensures { result ≡ has_next self.now bound }
    {
        self.next_byte(bound).is_some() || self.mark.is_some()
    }

    /// A byte was put of the packet, which is bound so.
    pub(crate) fn advance(&mut self, bound: Bound)
        requires is { self.old.bound ≡ Some bound }
        requires within { bound.from + bound.sent < length self.old.got.passed }
        ensures { self.new ≡
            record self.old { bound = Some (record bound { sent = bound.sent + 1 }) } }
    {
        let length = self.got.len();
        prove!(bound.sent < length);
        if let Some(leaving) = &mut self.bound {
            leaving.sent += 1;
        }
    }

    /// The mark was put, and the packet is gone.
    pub(crate) fn release(&mut self)
        ensures { self.new ≡
            record self.old
            { got = record self.old.got { passed = [] }; mark = None; bound = None } }
    {
        self.got.clear();
        self.mark = None;
        self.bound = None;
    }
}
