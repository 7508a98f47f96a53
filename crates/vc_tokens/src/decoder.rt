//! Packets read from a stream of tokens.
ghost use Rattle.std.specs.Prelude.{◌≡◌, ◌≤◌, ◌⊎◌, [], ◌∷◌, ◌++◌, length, OnOk, IfOk, IfErr};
ghost use Rattle.vc_tokens.specs.declared.refused.Why.TheVariants as why;
ghost use Rattle.vc_tokens.specs.Decoding.{IsBreak, Breaks, ReadsOn};
ghost use Rattle.vc_tokens.specs.CodeTokens.{token, tokens};
ghost use Rattle.vc_tokens.specs.Tokens.{bytes, Whole};

use crate::assembler::Assembler;
use crate::refused::{Refused, Why};
use crate::token::Token;
use std::alloc::Global;
use std::marker::Model;
use std::mem;
use vc_packets::{Mark, Memory, Packet};

/// Reads packets from a stream of tokens, which may be fed in pieces of any size.
#[derive(Drop)]
pub struct Decoder {
    alloc: Global,
    rest: Assembler,
    spare: Assembler,
    broken: Option<Why>,
}

impl Model for Decoder {
    ghost use Rattle.std.specs.Prelude.{◌≡◌};
    ghost use Rattle.vc_tokens.specs.Decoding.{Decoding};

    ghost Value = { Decoding };

    ghost view = { λ d. record { rest = d.rest.passed; limit = d.rest.limit; broken = d.broken } };

    ghost invariant = { λ d. d.spare.limit ≡ d.rest.limit };
}

/// Ends the packet that is being read, and adds it to those read.
fn end_packet(reading: &mut Assembler, packets: &mut Vec<Packet>, mark: Mark) -> Result<(), Why>
    ensures ok { OnOk result
        ((packets.new.items ≡
        packets.old.items ++ record { body = reading.old.passed; mark = mark } ∷ []) ×
        (reading.new ≡ record reading.old { passed = [] })) }
    ensures err { IfErr result (λ e. e ≡ why.Memory) }
    ensures limit { reading.new.limit ≡ reading.old.limit }
{
    let packet = reading.take(mark).map_err(|_| Why::Memory)?;
    packets.push(packet).map_err(|_| Why::Memory)?;
    Ok(())
}

/// Reads one token more.
fn read_token(reading: &mut Assembler, packets: &mut Vec<Packet>, next: Token) -> Result<(), Why>
    requires { length reading.old.passed ≤ reading.old.limit }
    ensures limit { reading.new.limit ≡ reading.old.limit }
    ensures ok { OnOk result
        (ReadsOn reading.old.limit packets.old.items reading.old.passed (token next)
        packets.new.items reading.new.passed) }
    ensures err { IfErr result
        (λ e.
        (e ≡ why.Memory) ⊎
        (IsBreak reading.old.limit reading.old.passed (token next) e ×
        (packets.new.items ≡ packets.old.items))) }
{
    match next {
        Token::Byte(byte) if reading.push(byte) => Ok(()),
        Token::Byte(_) => Err(Why::TooLong),
        Token::Fct => Err(Why::StrayFct),
        Token::Eop => end_packet(reading, packets, Mark::Eop),
        Token::Eom => end_packet(reading, packets, Mark::Eom),
    }
}

/// Reads tokens into packets, after the bytes that have passed.
fn read(alloc: Global, reading: &mut Assembler, next: &[Token]) -> Result<Vec<Packet>, Refused>
    requires { length reading.old.passed ≤ reading.old.limit }
    ensures limit { reading.new.limit ≡ reading.old.limit }
    ensures ok { IfOk result
        (λ packets.
        Whole reading.old.limit (bytes reading.old.passed ++ tokens next.now) packets.items
        reading.new.passed) }
    ensures err { IfErr result
        (λ refused.
        ((refused.why ≡ why.Memory) × (refused.before.items ≡ [])) ⊎ Breaks reading.old.limit
        (bytes reading.old.passed ++ tokens next.now) refused.before.items refused.why) }
{
    let mut packets = Vec::new(alloc);
    for token in next {
        if let Err(why) = read_token(reading, &mut packets, *token) {
            match why {
                Why::Memory => packets.clear(),
                Why::TooLong | Why::StrayFct => {}
            }
            return Err(Refused {
                before: packets,
                why,
            });
        }
    }
    Ok(packets)
}

impl Decoder {
    ghost use Rattle.std.specs.Prelude.{◌≡◌, [], None, IfOk, IfErr};
    ghost use Rattle.vc_tokens.specs.Decoding.{IsRead, IsRefused};
    ghost use Rattle.vc_tokens.specs.CodeTokens.{tokens};

    /// A decoder of packets whose bodies have at most `body_limit` bytes.
    pub fn new(alloc: Global, body_limit: usize) -> Result<Decoder, Memory>
        ensures { IfOk result
            (λ decoder. decoder ≡ record { rest = []; limit = body_limit; broken = None }) }
    {
        Ok(Decoder {
            alloc,
            rest: Assembler::new(alloc, body_limit)?,
            spare: Assembler::new(alloc, body_limit)?,
            broken: None,
        })
    }

    /// The packets that these tokens complete. The bytes after the last mark are kept for the next feed.
    ///
    /// Once a token has broken the spelling, every later feed is refused for the same reason, with no packets. For want of memory
    /// the decoder is unchanged.
    pub fn feed(&mut self, next: &[Token]) -> Result<Vec<Packet>, Refused>
        ensures ok { IfOk result
            (λ packets. IsRead self.old (tokens next.now) packets.items self.new) }
        ensures refused { IfErr result
            (λ refused.
            IsRefused self.old (tokens next.now) refused.before.items refused.why self.new) }
    {
        if let Some(why) = self.broken {
            return Err(Refused {
                before: Vec::new(self.alloc),
                why,
            });
        }
        self.spare.copy_from(&self.rest);
        match read(self.alloc, &mut self.spare, next) {
            Ok(packets) => {
                mem::swap(&mut self.rest, &mut self.spare);
                Ok(packets)
            }
            Err(refused) => {
                match refused.why {
                    Why::TooLong | Why::StrayFct => self.broken = Some(refused.why),
                    Why::Memory => {}
                }
                Err(refused)
            }
        }
    }
}
