//! The sending end of a switch's link: its credit, and the input whose packet leaves by it.
ghost use Rattle.std.specs.Prelude.{◌≡◌, ◌≤◌, ◌<◌, ◌+◌, ◌-◌, ◌↔◌, Some, None, IsTrue};
ghost use Rattle.std.specs.Bool.{OnTrue, OnFalse};

use vc_credit::Sender;

/// The sending end of a switch's link: the credit, and the input that is bound to it.
#[derive(Drop)]
pub(crate) struct LinkOut {
    /// How many more tokens may be put.
    pub(crate) credit: Sender,
    /// The input link whose packet leaves by it; none where it is free.
    pub(crate) source: Option<u8>,
}

impl LinkOut {
    /// A free link without credit.
    pub(crate) fn new() -> LinkOut
        ensures { result ≡ record { credit = 0; source = None } }
    {
        LinkOut {
            credit: Sender::new(),
            source: None,
        }
    }

    /// Whether no input is bound to it.
    pub(crate) fn is_free(&self) -> bool
        ensures { IsTrue result ↔ (self.now.source ≡ None) }
    {
        self.source.is_none()
    }

    /// A flow control token comes: eight more tokens may be put, where the credit is at most 8. Else nothing changes.
    pub(crate) fn accept(&mut self) -> bool
        ensures due { IsTrue result ↔ (self.old.credit ≤ 8) }
        ensures credited { OnTrue result
            (self.new ≡ record self.old { credit = self.old.credit + 8 }) }
        ensures dropped { OnFalse result (self.new ≡ self.old) }
    {
        let is_due = self.credit.may_fct();
        if is_due {
            self.credit.fct();
        }
        is_due
    }

    /// How many more tokens may be put: at most 16.
    pub(crate) fn credit_left(&self) -> u8
        ensures { result ≡ self.now.credit }
    {
        self.credit.credit()
    }

    /// Whether there is credit for a token.
    pub(crate) fn may_send(&self) -> bool
        ensures { IsTrue result ↔ (0 < self.now.credit) }
    {
        self.credit.may_send()
    }

    /// A token is put.
    pub(crate) fn spend(&mut self)
        requires { 0 < self.old.credit }
        ensures { self.new ≡ record self.old { credit = self.old.credit - 1 } }
    {
        self.credit.spend();
    }

    /// An input is bound to it.
    pub(crate) fn bind(&mut self, input: u8)
        ensures { self.new ≡ record self.old { source = Some input } }
    {
        self.source = Some(input);
    }

    /// A mark is put, with which it is free again.
    pub(crate) fn release(&mut self)
        requires { 0 < self.old.credit }
        ensures { self.new ≡ record { credit = self.old.credit - 1; source = None } }
    {
        self.spend();
        self.source = None;
    }
}
