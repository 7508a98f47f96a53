//! Two nodes whose ends of a virtual link exchange packets.
use sqlite_items::Items;
use std::alloc::Global;
use std::test::Fail;
use vc_packets::{Bytes, Mark, Memory, Packet};
use vc_tokens::Token;
use vc_vcp::{End, Taken, Vcp, Want};

/// A node with one end, by link 0 and of block 1.
fn node(alloc: Global, output: Option<u16>, input: Option<u16>) -> Result<Vcp, Memory> {
    let end = End {
        link: 0,
        block: 1,
        route: Items::from_slice(alloc, &[1])?,
        output,
        input,
    };
    Vcp::new(alloc, &[end], 64)
}

/// A packet of these bytes.
fn packet(alloc: Global, bytes: &[u8], mark: Mark) -> Result<Packet, Memory> {
    let body = Bytes::from_slice(alloc, bytes)?;
    Ok(Packet { body, mark })
}

/// Offers a message on channel 0, where that may be.
fn offer(alloc: Global, vcp: &mut Vcp, message: &[u8]) -> Result<bool, Memory> {
    if !vcp.may_offer(0) {
        return Ok(false);
    }
    vcp.offer(0, Bytes::from_slice(alloc, message)?)?;
    Ok(true)
}

/// Inputs on channel 0, where that may be.
fn want(vcp: &mut Vcp) -> Result<Option<Want>, Memory> {
    if !vcp.may_want(0) {
        return Ok(None);
    }
    Ok(Some(vcp.want(0)?))
}

/// Grants eight tokens by link 0, where there is room.
fn grant(from: &mut Vcp, to: &mut Vcp) {
    if from.may_grant(0) {
        from.grant(0);
        to.accept(0, Token::Fct);
    }
}

/// Puts a token by link 0, where there is one and credit.
fn put(from: &mut Vcp, to: &mut Vcp) {
    if from.may_put(0) {
        to.accept(0, from.put(0));
    }
}

/// Carries tokens over a wire until a packet has arrived.
fn carry(from: &mut Vcp, to: &mut Vcp) -> Result<Option<Taken>, Memory> {
    for _ in 0..100 {
        grant(to, from);
        put(from, to);
        let taken = to.pass(0)?;
        if taken.is_some() {
            return Ok(taken);
        }
    }
    Ok(None)
}

/// What came with a packet.
#[derive(Clone, Copy, PartialEq, Eq)]
enum Came {
    Nothing,
    Held,
    Stored,
    Complete,
    More,
    Finished,
    Stray,
}

/// What came, on channel 0.
fn kind_of(taken: Option<Taken>) -> Came {
    match taken {
        None => Came::Nothing,
        Some(Taken::Held { chan: 0 }) => Came::Held,
        Some(Taken::Stored { chan: 0 }) => Came::Stored,
        Some(Taken::Complete { chan: 0, .. }) => Came::Complete,
        Some(Taken::More { chan: 0 }) => Came::More,
        Some(Taken::Finished { chan: 0 }) => Came::Finished,
        Some(_) => Came::Stray,
    }
}

/// Outputs a message of two pieces from a to b, which inputs it; what came with each packet, in order.
fn exchange(a: &mut Vcp, b: &mut Vcp) -> Result<[Came; 4], Memory> {
    Ok([
        kind_of(carry(a, b)?),
        kind_of(carry(b, a)?),
        kind_of(carry(a, b)?),
        kind_of(carry(b, a)?),
    ])
}

/// Whether the input begins and waits, and then the output begins.
fn begin(alloc: Global, a: &mut Vcp, b: &mut Vcp) -> Result<bool, Memory> {
    Ok(matches!(want(b)?, Some(Want::Waits)) && offer(alloc, a, &[7; 33])?)
}

#[test]
fn a_message_of_two_pieces_is_exchanged(rt: HostRuntime) -> Result<(), Fail> {
    let mut a = node(rt.alloc(), Some(0), None)?;
    let mut b = node(rt.alloc(), None, Some(0))?;
    assert!(rt; begin(rt.alloc(), &mut a, &mut b)?);
    let wanted = [Came::Stored, Came::More, Came::Complete, Came::Finished];
    assert!(rt; exchange(&mut a, &mut b)? == wanted);
    assert_eq!(rt; (a.finished(0), b.taken(0).len()), (1, 1));
    Ok(())
}

/// Hands the packet at the front of link 0 over whole; what came with it.
fn hand(from: &mut Vcp, to: &mut Vcp) -> Result<Came, Memory> {
    match from.next_out(0) {
        None => Ok(Came::Nothing),
        Some(packet) => Ok(kind_of(Some(to.take(&packet)?))),
    }
}

#[test]
fn whole_packets_carry_a_message(rt: HostRuntime) -> Result<(), Fail> {
    let mut a = node(rt.alloc(), Some(0), None)?;
    let mut b = node(rt.alloc(), None, Some(0))?;
    assert!(rt; begin(rt.alloc(), &mut a, &mut b)?);
    assert!(rt; hand(&mut a, &mut b)? == Came::Stored && hand(&mut a, &mut b)? == Came::Nothing);
    assert!(rt; hand(&mut b, &mut a)? == Came::More);
    assert!(rt; hand(&mut a, &mut b)? == Came::Complete && hand(&mut b, &mut a)? == Came::Finished);
    assert_eq!(rt; (a.finished(0), b.taken(0).len()), (1, 1));
    Ok(())
}

#[test]
fn a_half_sent_packet_stays(rt: HostRuntime) -> Result<(), Fail> {
    let mut a = node(rt.alloc(), Some(0), None)?;
    let mut b = node(rt.alloc(), None, Some(0))?;
    assert!(rt; offer(rt.alloc(), &mut a, &[7])? && a.next_out(4).is_none());
    grant(&mut b, &mut a);
    put(&mut a, &mut b);
    assert!(rt; a.next_out(0).is_none() && a.front_out(0).is_some());
    Ok(())
}

#[test]
fn a_token_that_is_not_due_is_dropped(rt: HostRuntime) -> Result<(), Fail> {
    let mut a = node(rt.alloc(), None, None)?;
    a.accept(0, Token::Byte(7));
    a.accept(4, Token::Fct);
    assert!(rt; !a.may_pass(0) && a.strays() == 2);
    assert!(rt; !a.may_pass(4) && !a.may_put(4) && !a.may_grant(4));
    Ok(())
}

/// What comes with a packet of these bytes.
fn take(alloc: Global, vcp: &mut Vcp, bytes: &[u8], mark: Mark) -> Result<Came, Memory> {
    let packet = packet(alloc, bytes, mark)?;
    Ok(kind_of(Some(vcp.take(&packet)?)))
}

#[test]
fn a_packet_for_no_half_is_dropped(rt: HostRuntime) -> Result<(), Fail> {
    let mut a = node(rt.alloc(), Some(0), Some(0))?;
    assert!(rt;
        take(rt.alloc(), &mut a, &[0, 1], Mark::Eop)? == Came::Stray,
        "an acknowledge"
    );
    assert!(rt;
        take(rt.alloc(), &mut a, &[0, 9, 7], Mark::Eom)? == Came::Stray,
        "another block"
    );
    assert_eq!(rt; a.strays(), 2);
    Ok(())
}

/// Whether a packet is ready for an input, and none waits to leave.
fn holds(vcp: &Vcp) -> bool {
    vcp.ready(0) && vcp.front_out(0).is_none()
}

/// Whether an input completes at once, and then a packet waits to leave.
fn completes(vcp: &mut Vcp) -> Result<bool, Memory> {
    Ok(matches!(want(vcp)?, Some(Want::Complete(_))) && vcp.front_out(0).is_some())
}

#[test]
fn a_held_piece_waits_for_its_input(rt: HostRuntime) -> Result<(), Fail> {
    let mut b = node(rt.alloc(), None, Some(0))?;
    assert!(rt; take(rt.alloc(), &mut b, &[0, 1, 7], Mark::Eom)? == Came::Held && holds(&b));
    assert!(rt; completes(&mut b)?);
    Ok(())
}

#[test]
fn a_channel_is_stopped(rt: HostRuntime) -> Result<(), Fail> {
    let mut b = node(rt.alloc(), None, Some(0))?;
    if b.may_stop(0) {
        b.stopch(0);
    }
    assert!(rt; b.stopped(0) && !b.may_want(0));
    Ok(())
}
