//! Ways: each is one direction of a wire.
use std::alloc::Global;
use std::collections::VecDeque;
use std::marker::Model;
use vc_actor::Actor;
use vc_packets::Memory;
use vc_tokens::Token;

/// One direction of a wire: the tokens on it, the front one first.
#[derive(Drop)]
pub(crate) struct Way {
    queue: VecDeque<Token>,
}

impl Model for Way {
    ghost use Rattle.std.specs.Prelude.{List};
    ghost use Rattle.vc_tokens.specs.Tokens.{Token};
    ghost use Rattle.vc_tokens.specs.CodeTokens.{tokens};

    ghost Value = { List Token };

    ghost view = { λ x. tokens x.queue.items };
}

impl Way {
    ghost use Rattle.std.specs.Prelude.{◌≡◌, ◌≢◌, ◌↔◌, [], ◌∷◌, ◌++◌, List, length, IsTrue, OnOk, OnErr};
    ghost use Rattle.vc_tokens.specs.Tokens.{Token};
    ghost use Rattle.vc_tokens.specs.CodeTokens.{token, tokens};
    ghost use Rattle.vc_actor.specs.Acts.{MayAct};
    ghost use Rattle.std.specs.Option.{option_map};
    ghost use Rattle.vc_core.specs.Links.{last_of};
    ghost use Rattle.vc_core.specs.Private.Ways.{PutsAt};
    ghost use Rattle.vc_actor.specs.declared.act.Act.TheVariants as act;

    /// A way with no token on it.
    pub(crate) fn new(alloc: Global) -> Way
        ensures { result ≡ [] }
    {
        Way {
            queue: VecDeque::new(alloc),
        }
    }

    /// The tokens on the way, in two parts: those of the first come before those of the second.
    pub(crate) fn tokens(&self) -> (&[Token], &[Token])
        ensures { tokens (result.0.now ++ result.1.now) ≡ self.now }
    {
        self.queue.as_slices()
    }

    /// How many tokens are on the way.
    pub(crate) fn len(&self) -> usize
        ensures { result ≡ length self.now }
    {
        self.queue.len()
    }

    /// The token at the end, which came last.
    pub(crate) fn last(&self) -> Option<Token>
        ensures { option_map token result ≡ last_of self.now }
    {
        self.queue.back().copied()
    }

    /// Takes the front token off. One that is alone is taken from the end, so that the ring's head stays where it is. While tokens come
    /// one by one the ring does not wrap around, and its two branches on that go the same way each time (bench/lab).
    #[inline(always)]
    pub(crate) fn take_front(&mut self) -> Token
        requires { self.old ≢ [] }
        ensures { self.old ≡ token result ∷ self.new }
    {
        let front = if self.queue.len() == 1 {
            self.queue.pop_back()
        } else {
            self.queue.pop_front()
        };
        match front {
            Some(token) => token,
            None => unreachable!(),
        }
    }

    /// Whether no token is on the way.
    pub(crate) fn is_empty(&self) -> bool
        ensures { IsTrue result ↔ (self.now ≡ []) }
    {
        self.queue.is_empty()
    }

    /// A token more comes to the end.
    #[inline(always)]
    pub(crate) fn push(&mut self, more: Token) -> Result<(), Memory>
        ensures ok { OnOk result (self.new ≡ self.old ++ token more ∷ []) }
        ensures err { OnErr result (self.new ≡ self.old) }
    {
        self.queue.push_back(more)?;
        Ok(())
    }

    /// The next token that an actor puts on a link comes to the end.
    #[inline(always)]
    pub(crate) fn put(&mut self, from: &mut Actor, link: u8) -> Result<(), Memory>
        requires { MayAct from.old (act.Put link) }
        ensures ok { OnOk result (PutsAt from.old link self.old from.new self.new) }
        ensures err { OnErr result ((from.new ≡ from.old) × (self.new ≡ self.old)) }
    {
        self.queue.try_reserve(1)?;
        let token = from.put(link);
        self.queue.push_back_reserved(token);
        Ok(())
    }
}
