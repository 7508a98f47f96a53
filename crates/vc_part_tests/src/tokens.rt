//! Tokens of packets, there and back.
use crate::packets::is_packet;
use std::alloc::Global;
use std::test::Fail;
use vc_packets::{Mark, Memory, Packet, ack};
use vc_tokens::{Assembler, Decoder, Encoder, Refused, Token, Why, encode};

/// A stream of two packets: an acknowledge and a one-byte message.
const STREAM: &[Token] = &[
    Token::Byte(0),
    Token::Byte(1),
    Token::Eop,
    Token::Byte(0),
    Token::Byte(1),
    Token::Byte(104),
    Token::Eom,
];

/// Whether these are the packets of the stream.
fn are_of_the_stream(packets: &[Packet]) -> bool {
    match packets {
        [first, second] => {
            is_packet(first, &[0, 1], Mark::Eop) && is_packet(second, &[0, 1, 104], Mark::Eom)
        }
        _ => false,
    }
}

const ACKNOWLEDGE: &[Token] = &[Token::Byte(0), Token::Byte(1), Token::Eop];

#[test]
fn an_acknowledge_is_two_bytes_and_eop(rt: HostRuntime) -> Result<(), Fail> {
    let packet = ack(rt.alloc(), &[1])?;
    assert_eq!(rt; encode(rt.alloc(), &packet)?.as_slice(), ACKNOWLEDGE);
    let mut encoder = Encoder::new(packet);
    for token in ACKNOWLEDGE {
        assert_eq!(rt; encoder.encode_next(), Some(*token));
    }
    assert_eq!(rt; encoder.encode_next(), None);
    Ok(())
}

/// Feeds the stream cut where `cuts` has a bit set: bit `k` cuts before token `k + 1`.
fn fed_in_pieces(alloc: Global, limit: usize, cuts: u8) -> Result<Vec<Packet>, Refused> {
    let none = Refused {
        before: Vec::new(alloc),
        why: Why::Memory,
    };
    let Ok(mut decoder) = Decoder::new(alloc, limit) else {
        return Err(none);
    };
    let mut packets = Vec::new(alloc);
    let mut start = 0;
    for end in 1..8usize {
        if end == 7 || cuts / 2u8.pow(end as u32 - 1) % 2 == 1 {
            let mut more = decoder.feed(STREAM.get(start..end).unwrap_or(&[]))?;
            if packets.append(&mut more).is_err() {
                return Err(none);
            }
            start = end;
        }
    }
    Ok(packets)
}

#[test]
fn every_cutting_gives_the_same_packets(rt: HostRuntime) {
    for limit in [40, 44] {
        for cuts in 0..64 {
            let fits = match fed_in_pieces(rt.alloc(), limit, cuts) {
                Ok(packets) => are_of_the_stream(&packets),
                Err(_) => false,
            };
            assert!(rt; fits, "limit {limit}, cuts {cuts}");
        }
    }
}

/// How many packets ended, where the feed was not refused.
fn count(fed: Result<Vec<Packet>, Refused>) -> Option<usize> {
    match fed {
        Ok(packets) => Some(packets.len()),
        Err(_) => None,
    }
}

/// How many packets end with as many bytes as the limit, and how many with the mark after them.
fn fed_full(alloc: Global, limit: usize) -> Result<(Option<usize>, Option<usize>), Fail> {
    let mut decoder = Decoder::new(alloc, limit)?;
    let full = vec![in alloc; Token::Byte(7); limit]?;
    Ok((
        count(decoder.feed(&full)),
        count(decoder.feed(&[Token::Eom])),
    ))
}

#[test]
fn a_body_may_have_as_many_bytes_as_the_limit(rt: HostRuntime) -> Result<(), Fail> {
    for limit in [40, 44] {
        assert_eq!(rt; fed_full(rt.alloc(), limit)?, (Some(0), Some(1)));
    }
    Ok(())
}

/// Why a feed was refused, and how many packets ended before.
fn refusal(fed: Result<Vec<Packet>, Refused>) -> Option<(Why, usize)> {
    match fed {
        Ok(_) => None,
        Err(refused) => Some((refused.why, refused.before.len())),
    }
}

/// Why a byte past the limit is refused, and then a mark, and a feed of nothing.
fn fed_too_long(alloc: Global, limit: usize) -> Result<[Option<(Why, usize)>; 3], Fail> {
    let mut decoder = Decoder::new(alloc, limit)?;
    let long = vec![in alloc; Token::Byte(7); limit + 1]?;
    Ok([
        refusal(decoder.feed(&long)),
        refusal(decoder.feed(&[Token::Eop])),
        refusal(decoder.feed(&[])),
    ])
}

#[test]
fn a_byte_past_the_limit_is_refused_for_good(rt: HostRuntime) -> Result<(), Fail> {
    for limit in [40, 44] {
        assert_eq!(rt;
            fed_too_long(rt.alloc(), limit)?,
            [Some((Why::TooLong, 0)); 3]
        );
    }
    Ok(())
}

/// Whether a feed was refused for a stray token after the acknowledge for block 1.
fn is_stray_behind_an_acknowledge(fed: Result<Vec<Packet>, Refused>) -> bool {
    match fed {
        Ok(_) => false,
        Err(refused) => match refused.before.as_slice() {
            [packet] => refused.why == Why::StrayFct && is_packet(packet, &[0, 1], Mark::Eop),
            _ => false,
        },
    }
}

#[test]
fn a_stray_fct_is_refused_behind_the_packets_before_it(rt: HostRuntime) -> Result<(), Fail> {
    let mut decoder = Decoder::new(rt.alloc(), 40)?;
    let stream = [
        Token::Byte(0),
        Token::Byte(1),
        Token::Eop,
        Token::Byte(0),
        Token::Fct,
    ];
    assert!(rt; is_stray_behind_an_acknowledge(decoder.feed(&stream)));
    assert_eq!(rt;
        refusal(decoder.feed(&[Token::Eop])),
        Some((Why::StrayFct, 0))
    );
    Ok(())
}

#[test]
fn an_assembler_drops_bytes_past_its_limit(rt: HostRuntime) -> Result<(), Fail> {
    let mut assembler = Assembler::new(rt.alloc(), 2)?;
    assert!(rt; assembler.is_empty() && assembler.push(1) && assembler.push(2));
    assert!(rt; assembler.is_full() && !assembler.push(3) && assembler.len() == 2);
    let packet = assembler.take(Mark::Eom)?;
    assert!(rt; is_packet(&packet, &[1, 2], Mark::Eom) && assembler.is_empty());
    Ok(())
}
