//! The halves of a virtual link's end, step by step.
ghost use Rattle.std.specs.Prelude.{◌≡◌, ◌≤◌, length, IfOk};
ghost use Rattle.vc_blocks.specs.Halves.{IsPiece};

use crate::packets::is_packet;
use std::alloc::Global;
use std::test::Fail;
use vc_blocks::{Advance, Arrival, InHalf, OutHalf, Want};
use vc_packets::{Bytes, Mark, Memory, Packet};

/// A packet of a header and 32 bytes.
const FULL: [u8; 34] = [
    0, 1, 7, 7, 7, 7, 7, 7, 7, 7, 7, 7, 7, 7, 7, 7, 7, 7, 7, 7, 7, 7, 7, 7, 7, 7, 7, 7, 7, 7, 7, 7,
    7, 7,
];

/// What happens next to the half that outputs, or what it shows.
#[derive(Clone, Copy)]
enum Output<'a> {
    /// Whether no message is under way.
    IsIdle(bool),
    /// A message goes under way.
    Offers(&'a [u8]),
    /// The packet under way has this body and mark.
    Sends(&'a [u8], Mark),
    /// Whether the packet under way is its message's last.
    IsLast(bool),
    /// The packet after the one under way has this body and mark.
    SendsNext(&'a [u8], Mark),
    /// The packet under way is acknowledged.
    Acked(Advance),
}

/// Whether the half takes this step.
fn outputs(half: &mut OutHalf, alloc: Global, step: Output) -> Result<bool, Memory> {
    match step {
        Output::IsIdle(idle) => Ok(half.is_idle() == idle),
        Output::Offers(message) => offers(half, Bytes::from_slice(alloc, message)?),
        _ if half.is_idle() => Ok(false),
        Output::Sends(body, mark) => Ok(is_packet(&half.packet(alloc)?, body, mark)),
        Output::IsLast(last) => Ok(half.is_last() == last),
        Output::SendsNext(_, _) if half.is_last() => Ok(false),
        Output::SendsNext(body, mark) => Ok(is_packet(&half.next_packet(alloc)?, body, mark)),
        Output::Acked(advance) => Ok(half.acked() == advance),
    }
}

fn offers(half: &mut OutHalf, message: Bytes) -> Result<bool, Memory> {
    let may_offer = half.is_idle();
    if may_offer {
        half.offer(message);
    }
    Ok(may_offer)
}

#[test]
fn a_message_goes_piece_by_piece(rt: HostRuntime) -> Result<(), Fail> {
    let mut half = OutHalf::new(rt.alloc(), &[1])?;
    assert_eq!(rt; half.route(), [1].as_slice());
    const STEPS: &[Output] = &[
        Output::IsIdle(true),
        Output::Offers(&[7; 33]),
        Output::IsIdle(false),
        Output::Sends(&FULL, Mark::Eop),
        Output::Sends(&FULL, Mark::Eop),
        Output::IsLast(false),
        Output::SendsNext(&[0, 1, 7], Mark::Eom),
        Output::Acked(Advance::More),
        Output::IsIdle(false),
        Output::Sends(&[0, 1, 7], Mark::Eom),
        Output::IsLast(true),
        Output::Acked(Advance::Finished),
        Output::IsIdle(true),
    ];
    for (at, step) in STEPS.iter().enumerate() {
        assert!(rt; outputs(&mut half, rt.alloc(), *step)?, "step {at}");
    }
    Ok(())
}

/// What becomes of a piece that arrives, or of an input.
#[derive(Clone, Copy)]
enum Comes<'a> {
    Waits,
    Held,
    Stored,
    Complete(&'a [u8]),
}

impl Comes<'_> {
    fn is_arrival(self, arrival: &Arrival) -> bool {
        match arrival {
            Arrival::Held => matches!(self, Comes::Held),
            Arrival::Stored => matches!(self, Comes::Stored),
            Arrival::Complete(message) => self.is_whole(message),
        }
    }

    fn is_want(self, want: &Want) -> bool {
        match want {
            Want::Waits => matches!(self, Comes::Waits),
            Want::Stored => matches!(self, Comes::Stored),
            Want::Complete(message) => self.is_whole(message),
        }
    }

    fn is_whole(self, message: &Bytes) -> bool {
        match self {
            Comes::Complete(wanted) => message.as_slice() == wanted,
            Comes::Waits | Comes::Held | Comes::Stored => false,
        }
    }
}

/// What happens next to the half that inputs, or what it shows.
#[derive(Clone, Copy)]
enum Input<'a> {
    /// Whether a piece may arrive.
    MayArrive(bool),
    /// Whether a process inputs.
    Wants(bool),
    /// Whether an input would find a piece.
    Ready(bool),
    /// A message's last piece arrives.
    Last(&'a [u8], Comes<'a>),
    /// A piece arrives that more follow.
    Full(&'a [u8], Comes<'a>),
    /// A process inputs.
    Want(Comes<'a>),
    /// The bytes stored of the message that is arriving.
    Stored(&'a [u8]),
    /// Nothing more is taken.
    Stop,
}

/// The last piece of a message, for block 1.
fn last_piece(alloc: Global, load: &[u8]) -> Result<Packet, Memory>
    requires { length load.now ≤ 32 }
    ensures { IfOk result (λ packet. IsPiece packet) }
{
    let mut body = Vec::from_slice(alloc, &[0, 1])?;
    body.extend_from_slice(load)?;
    Ok(Packet {
        body: Bytes::from_vec(body),
        mark: Mark::Eom,
    })
}

/// A piece that more follow, for block 1.
fn full_piece(alloc: Global, load: &[u8]) -> Result<Packet, Memory>
    requires { length load.now ≡ 32 }
    ensures { IfOk result (λ packet. IsPiece packet) }
{
    let mut body = Vec::from_slice(alloc, &[0, 1])?;
    body.extend_from_slice(load)?;
    Ok(Packet {
        body: Bytes::from_vec(body),
        mark: Mark::Eop,
    })
}

/// Whether the half takes this step.
fn inputs(half: &mut InHalf, alloc: Global, step: Input) -> Result<bool, Memory> {
    match step {
        Input::MayArrive(may_arrive) => Ok(half.may_arrive() == may_arrive),
        Input::Wants(wants) => Ok(half.wants() == wants),
        Input::Ready(ready) => Ok(half.ready() == ready),
        Input::Last(load, comes) if load.len() <= 32 => {
            arrives(half, &last_piece(alloc, load)?, comes)
        }
        Input::Full(load, comes) if load.len() == 32 => {
            arrives(half, &full_piece(alloc, load)?, comes)
        }
        Input::Last(_, _) | Input::Full(_, _) => Ok(false),
        Input::Want(comes) => finds(half, comes),
        Input::Stored(wanted) => Ok(half.stored() == wanted),
        Input::Stop => Ok(stops(half)),
    }
}

fn arrives(half: &mut InHalf, packet: &Packet, comes: Comes) -> Result<bool, Memory>
    requires { IsPiece packet.now }
{
    if !half.may_arrive() {
        return Ok(false);
    }
    Ok(comes.is_arrival(&half.arrive(packet)?))
}

fn finds(half: &mut InHalf, comes: Comes) -> Result<bool, Memory> {
    if half.wants() || half.is_stopped() {
        return Ok(false);
    }
    Ok(comes.is_want(&half.want()?))
}

fn stops(half: &mut InHalf) -> bool {
    if half.wants() {
        return false;
    }
    half.stop();
    half.is_stopped()
}

/// The first of these steps that a new half does not take.
fn first_refused(alloc: Global, steps: &[Input]) -> Result<Option<usize>, Memory> {
    let mut half = InHalf::new(alloc);
    for (at, step) in steps.iter().enumerate() {
        if !inputs(&mut half, alloc, *step)? {
            return Ok(Some(at));
        }
    }
    Ok(None)
}

#[test]
fn a_piece_is_held_until_a_process_inputs(rt: HostRuntime) -> Result<(), Fail> {
    const STEPS: &[Input] = &[
        Input::MayArrive(true),
        Input::Ready(false),
        Input::Last(b"hello", Comes::Held),
        Input::MayArrive(false),
        Input::Ready(true),
        Input::Wants(false),
        Input::Want(Comes::Complete(b"hello")),
        Input::MayArrive(true),
        Input::Wants(false),
        Input::Stop,
        Input::Ready(false),
    ];
    assert_eq!(rt; first_refused(rt.alloc(), STEPS)?, None);
    Ok(())
}

#[test]
fn pieces_are_put_together_for_a_process_that_inputs(rt: HostRuntime) -> Result<(), Fail> {
    const STEPS: &[Input] = &[
        Input::Want(Comes::Waits),
        Input::Wants(true),
        Input::MayArrive(true),
        Input::Full(&[7; 32], Comes::Stored),
        Input::Wants(true),
        Input::MayArrive(true),
        Input::Stored(&[7; 32]),
        Input::Last(&[7], Comes::Complete(&[7; 33])),
        Input::Wants(false),
        Input::MayArrive(true),
        Input::Last(&[7], Comes::Held),
        Input::Ready(true),
    ];
    assert_eq!(rt; first_refused(rt.alloc(), STEPS)?, None);
    Ok(())
}
