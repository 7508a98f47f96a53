//! Messages cut into packets, and what packets are.
use std::alloc::Global;
use std::test::Fail;
use vc_packets::{Bytes, Kind, Mark, Memory, Packet, ack, front_header, kind_of, piece, pieces};

/// Whether the packet has this body and this mark.
pub(crate) fn is_packet(packet: &Packet, body: &[u8], mark: Mark) -> bool {
    packet.body.as_slice() == body && packet.mark == mark
}

#[test]
fn a_message_has_a_piece_for_each_32_bytes_begun(rt: HostRuntime) {
    const COUNTS: &[(usize, usize)] = &[(0, 1), (31, 1), (32, 1), (33, 2), (64, 2), (65535, 2048)];
    for (len, count) in COUNTS {
        assert_eq!(rt; pieces(*len), *count, "at {len} bytes");
    }
}

#[test]
fn a_short_message_is_one_packet(rt: HostRuntime) -> Result<(), Fail> {
    let packet = piece(rt.alloc(), &[10, 1], b"hello", 0)?;
    assert!(rt; is_packet(&packet, b"\x00\x0a\x00\x01hello", Mark::Eom));
    assert_eq!(rt; front_header(&packet), Some(10));
    Ok(())
}

#[test]
fn an_acknowledge_is_a_header_alone(rt: HostRuntime) -> Result<(), Fail> {
    let packet = ack(rt.alloc(), &[1])?;
    assert!(rt; is_packet(&packet, &[0, 1], Mark::Eop));
    Ok(())
}

/// How long the body of a message's piece is, and its mark.
fn cut(alloc: Global, message: &[u8], number: usize) -> Result<Option<(usize, Mark)>, Memory> {
    if number >= pieces(message.len()) {
        return Ok(None);
    }
    let packet = piece(alloc, &[1], message, number)?;
    Ok(Some((packet.body.len(), packet.mark)))
}

#[test]
fn the_longest_message_ends_with_31_bytes(rt: HostRuntime) -> Result<(), Fail> {
    let message = vec![in rt.alloc(); 7; 65535]?;
    assert_eq!(rt; cut(rt.alloc(), &message, 0)?, Some((34, Mark::Eop)));
    assert_eq!(rt; cut(rt.alloc(), &message, 2047)?, Some((33, Mark::Eom)));
    Ok(())
}

/// How many bytes a packet carries after its header, its mark, and its kind.
const KINDS: &[(usize, Mark, Kind)] = &[
    (0, Mark::Eop, Kind::Ack),
    (0, Mark::Eom, Kind::Piece { last: true }),
    (32, Mark::Eop, Kind::Piece { last: false }),
    (32, Mark::Eom, Kind::Piece { last: true }),
    (31, Mark::Eop, Kind::Malformed),
    (33, Mark::Eom, Kind::Malformed),
];

#[test]
fn the_kinds_of_packets(rt: HostRuntime) {
    let load = [0; 33];
    for (len, mark, kind) in KINDS {
        let load = load.get(..*len).unwrap_or(&[]);
        assert_eq!(rt; kind_of(load, *mark), *kind, "{len} bytes, {mark:?}");
    }
}

#[test]
fn bytes_with_room_are_those_that_join_them(rt: HostRuntime) -> Result<(), Fail> {
    for room in [0, 5, 40] {
        let mut bytes = Bytes::with_capacity(rt.alloc(), room)?;
        bytes.extend_from_slice(b"hello")?;
        assert_eq!(rt; bytes.as_slice(), b"hello".as_slice(), "room for {room}");
    }
    Ok(())
}
