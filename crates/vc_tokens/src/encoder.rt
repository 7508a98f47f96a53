//! A packet's spelling, at once or token by token.
ghost use Rattle.std.specs.Prelude.{◌≡◌, IfOk};
ghost use Rattle.vc_tokens.specs.Tokens.{spelling};
ghost use Rattle.vc_tokens.specs.CodeTokens.{tokens};

use crate::token::Token;
use std::alloc::Global;
use std::marker::Model;
use vc_packets::{Bytes, Mark, Memory, Packet};

/// The spelling of a packet.
pub fn encode(alloc: Global, packet: &Packet) -> Result<Vec<Token>, Memory>
    ensures { IfOk result (λ spelled. tokens spelled.items ≡ spelling packet.now) }
{
    let body = packet.body.as_slice();
    let mut spelled = Vec::with_capacity(alloc, body.len().saturating_add(1))?;
    for byte in body {
        spelled.push(Token::Byte(*byte))?;
    }
    spelled.push(Token::from(packet.mark))?;
    Ok(spelled)
}

/// Gives a packet's spelling token by token. Contracts see the tokens that are left.
#[derive(Drop)]
pub struct Encoder {
    body: Bytes,
    given: usize,
    mark: Option<Mark>,
}

impl Model for Encoder {
    ghost use Rattle.std.specs.Prelude.{List, ◌++◌, drop, ◌≤◌, length};
    ghost use Rattle.vc_tokens.specs.Tokens.{Token, bytes, last_mark};

    ghost Value = { List Token };

    ghost view = { λ e. bytes (drop e.given e.body) ++ last_mark e.mark };

    ghost invariant = { λ e. e.given ≤ length e.body };
}

impl Encoder {
    ghost use Rattle.std.specs.Prelude.{◌≡◌, [], ◌∷◌, MatchOption};
    ghost use Rattle.vc_tokens.specs.Tokens.{spelling};
    ghost use Rattle.vc_tokens.specs.CodeTokens.{token};

    /// An encoder that gives this packet's spelling.
    pub fn new(packet: Packet) -> Encoder
        ensures { result ≡ spelling packet }
    {
        let Packet { body, mark } = packet;
        Encoder {
            body,
            given: 0,
            mark: Some(mark),
        }
    }

    /// The next token of the spelling, or nothing once all were given.
    pub fn encode_next(&mut self) -> Option<Token>
        ensures { MatchOption result ((self.old ≡ []) × (self.new ≡ []))
            (λ next. self.old ≡ token next ∷ self.new) }
    {
        if self.given < self.body.len() {
            let byte = self.body.as_slice()[self.given];
            self.given += 1;
            return Some(Token::Byte(byte));
        }
        self.mark.take().map(Token::from)
    }
}
