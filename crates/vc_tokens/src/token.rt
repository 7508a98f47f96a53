//! Tokens.

use vc_packets::Mark;

/// A token of a link ("Networks, Routers and Transputers", chapter 2).
#[derive(Clone, Copy, Debug, PartialEq, Eq, Drop)]
pub enum Token {
    /// A data token.
    Byte(u8),
    /// Flow control: the other end may send eight more tokens.
    Fct,
    /// End of packet.
    Eop,
    /// End of message.
    Eom,
}

impl From<Mark> for Token {
    ghost use Rattle.std.specs.Prelude.{◌≡◌};
    ghost use Rattle.vc_tokens.specs.Tokens.{EndMark};
    ghost use Rattle.vc_tokens.specs.CodeTokens.{token};

    ghost from_gives = { λ mark mark_token. token mark_token ≡ EndMark mark };

    fn from(mark: Mark) -> Token {
        match mark {
            Mark::Eop => Token::Eop,
            Mark::Eom => Token::Eom,
        }
    }
}
