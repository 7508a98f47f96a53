//! A worker by itself, its stamps, its gate, and the merge of what workers did.
ghost use Rattle.std.specs.Prelude.{◌≡◌, ◌∷◌, [], IfOk};
ghost use Rattle.vc_actor.specs.declared.act.Act.{Act as SpeltAct};

use crate::networks::HELLO;
use rtrb::RingBuffer;
use std::alloc::Global;
use std::process::Abort;
use std::test::Fail;
use vc_core::{Act, Actor, actors};
use vc_plan::check;
use vc_reader::read_network;
use vc_threads::{
    ActorActs, ActorRun, EndGate, Ends, Gate, In, LinkRule, Stamped, Stop, merge, next_stamp,
    worker,
};
use vc_tokens::Token;

#[test]
fn stamps_follow_the_clock_and_the_item(rt: HostRuntime) -> Result<(), Fail> {
    assert_eq!(rt; next_stamp(3, Some(7)), Some(8));
    assert_eq!(rt; next_stamp(7, None), Some(8));
    assert_eq!(rt; next_stamp(7, Some(3)), Some(8));
    assert_eq!(rt; next_stamp(u64::MAX, None), None);
    assert_eq!(rt; next_stamp(3, Some(u64::MAX)), None);
    Ok(())
}

#[test]
fn the_gate_closes_after_every_node(rt: HostRuntime) -> Result<(), Fail> {
    let gate = EndGate::new(2);
    assert!(rt; gate.pass(0, 0));
    gate.ended(1);
    gate.ended(1);
    gate.ended(2);
    assert!(rt; gate.pass(0, 1) && gate.pass(1, 1));
    gate.ended(0);
    assert!(rt; !gate.pass(0, 2));
    Ok(())
}

/// A node by itself, whose process is a SKIP.
const SKIPS: &str = r#"{"version":1,"nodes":[{"name":"a","process":"skip"}]}"#;

/// The last actor of a network without switches.
fn actor(rt: &impl Abort, alloc: Global, text: &str) -> Result<Actor, Fail> {
    let Ok(accepted) = check(alloc, read_network(alloc, text.as_bytes())?) else {
        panic!(rt; "the plan is refused");
    };
    let Ok(mut nodes) = actors(alloc, &accepted) else {
        panic!(rt; "no memory");
    };
    let Some(node) = nodes.pop() else {
        panic!(rt; "no node");
    };
    Ok(node)
}

#[test]
fn a_token_without_a_place_is_counted(rt: HostRuntime) -> Result<(), Fail> {
    let mut node = actor(&rt, rt.alloc(), HELLO)?;
    assert_eq!(rt; node.faults(), 0);
    if node.may_take(0) {
        node.take(0, &Token::Byte(5), 0)?;
    }
    assert_eq!(rt; node.faults(), 1);
    Ok(())
}

/// One act of an actor.
fn one_act(alloc: Global, id: u8, at: u64) -> Result<ActorActs, Fail>
    ensures { IfOk result
        (λ r. (r.id ≡ id) × ((act : SpeltAct) × (r.acts.items ≡ (at, act) ∷ []))) }
{
    let mut acts = Vec::new(alloc);
    acts.push((at, Act::Pass { link: 0 }))?;
    Ok(ActorActs { id, acts })
}

#[test]
fn the_merge_goes_by_stamp_then_actor(rt: HostRuntime) -> Result<(), Fail> {
    let late = one_act(rt.alloc(), 0, 3)?;
    let early = one_act(rt.alloc(), 2, 1)?;
    let tied = one_act(rt.alloc(), 1, 3)?;
    let runs = [late, early, tied];
    let Ok(events) = merge(rt.alloc(), &runs) else {
        panic!(rt; "no memory");
    };
    assert_eq!(rt; events.len(), 3);
    assert_eq!(rt; events[0].actor, 2);
    assert_eq!(rt; events[1].actor, 0);
    assert_eq!(rt; events[2].actor, 1);
    Ok(())
}

/// What the node whose process is a SKIP does with this gate, where a token waits for it.
fn skipped<G: Gate>(rt: &impl Abort, alloc: Global, gate: &G) -> Result<ActorRun<ActorActs>, Fail> {
    let (mut producer, consumer) = RingBuffer::with_protocol::<Global, LinkRule>(alloc, 32)?;
    let item = Token::Fct;
    assert!(rt; producer.push(Stamped { at: 7, item }).is_ok());
    let mut ins = Vec::new(alloc);
    ins.push((2u8, consumer))?;
    let outs = Vec::new(alloc);
    let ends = Ends { outs, ins };
    Ok(worker(alloc, 0, actor(rt, alloc, SKIPS)?, ends, gate, 100, 7))
}

#[test]
fn a_worker_takes_and_then_ends(rt: HostRuntime) -> Result<(), Fail> {
    let made = skipped(&rt, rt.alloc(), &EndGate::new(1))?;
    assert!(rt; made.stop == Stop::Gate);
    assert_eq!(rt; made.log.acts.len(), 2);
    assert_eq!(rt; made.log.acts[0].0, 8);
    assert!(rt; matches!(made.log.acts[0].1, Act::Take { link: 2, .. }));
    assert_eq!(rt; made.log.acts[1].0, 9);
    Ok(())
}

/// An end that comes in by a link, with a token that waits in its ring.
fn end_with_token(rt: &impl Abort, alloc: Global, link: u8) -> Result<(u8, In), Fail>
    ensures { IfOk result (λ end. end.0 ≡ link) }
{
    let (mut producer, consumer) = RingBuffer::with_protocol::<Global, LinkRule>(alloc, 32)?;
    let item = Token::Fct;
    assert!(rt; producer.push(Stamped { at: 7, item }).is_ok());
    Ok((link, consumer))
}

#[test]
fn a_worker_takes_from_the_least_link_first(rt: HostRuntime) -> Result<(), Fail> {
    let mut ins = Vec::new(rt.alloc());
    ins.push(end_with_token(&rt, rt.alloc(), 2)?)?;
    ins.push(end_with_token(&rt, rt.alloc(), 1)?)?;
    let outs = Vec::new(rt.alloc());
    let ends = Ends { outs, ins };
    let node = actor(&rt, rt.alloc(), SKIPS)?;
    let made: ActorRun<ActorActs> = worker(rt.alloc(), 0, node, ends, &EndGate::new(1), 100, 7);
    assert_eq!(rt; made.log.acts.len(), 3);
    assert!(rt; matches!(made.log.acts[0].1, Act::Take { link: 1, .. }));
    assert!(rt; matches!(made.log.acts[1].1, Act::Take { link: 2, .. }));
    Ok(())
}

/// Refuses one turn.
#[derive(Drop)]
struct RefusesTurn(u64);

impl Gate for RefusesTurn {
    fn pass(&self, _actor: u8, turn: u64) -> bool {
        turn != self.0
    }

    fn ended(&self, _actor: u8) {}
}

#[test]
fn a_worker_ends_at_the_turn_that_its_gate_refuses(rt: HostRuntime) -> Result<(), Fail> {
    for turn in 0..2 {
        let made = skipped(&rt, rt.alloc(), &RefusesTurn(turn))?;
        assert!(rt; made.stop == Stop::Gate);
        assert_eq!(rt; made.log.acts.len() as u64, turn);
    }
    Ok(())
}
