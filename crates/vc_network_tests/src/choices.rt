//! An ALT that takes either of two guards that are ready.
use crate::networks::{CHOICE, accept, replayed};
use crate::play::{Play, same_view};
use std::alloc::Global;
use std::test::Fail;
use vc_core::{Act, Event, Network};
use vc_occam::Move;
use vc_plan::Accepted;

/// Makes what is enabled at one of two nodes and its link 0, but no choice.
fn settle_one(play: &mut Play, actor: u8) -> Result<(), Fail> {
    let link = 0;
    for act in [
        Act::Take { link, word: 0 },
        Act::Pass { link },
        Act::Fct { link },
        Act::Put { link },
    ] {
        play.make(actor, act)?;
    }
    match play.network.next(actor)? {
        Some(event) if !matches!(event.act, Act::Proc(Move::Choose { .. })) => {
            play.make(actor, event.act)?;
        }
        _ => {}
    }
    Ok(())
}

/// Makes what is enabled at two nodes, but no choice.
fn settle(play: &mut Play) -> Result<(), Fail> {
    for _ in 0..100 {
        settle_one(play, 0)?;
        settle_one(play, 1)?;
    }
    Ok(())
}

/// Takes this guard, once both are ready, and goes on.
fn choose(play: &mut Play, guard: u16) -> Result<(), Fail> {
    settle(play)?;
    let choice = Act::Proc(Move::Choose {
        site: 1,
        guard,
        chan: guard,
    });
    if !play.make(1, choice)? {
        return Err(Fail::from("a guard that is not ready"));
    }
    settle(play)
}

/// The events of the choice network in which the ALT takes its guards in this order, once both are ready.
fn choose_both(
    alloc: Global,
    accepted: &Accepted,
    first: u16,
    second: u16,
) -> Result<Vec<Event>, Fail> {
    let mut play = Play::begin(alloc, accepted)?;
    choose(&mut play, first)?;
    choose(&mut play, second)?;
    Ok(play.events)
}

/// Whether both networks have ended, with one output finished on each channel, and show the same.
fn end_alike(left: &Network, right: &Network) -> bool {
    left.ended()
        && right.ended()
        && (left.finished(0), left.finished(1)) == (1, 1)
        && same_view(left, right, 0)
        && same_view(left, right, 1)
}

/// Whether these are other events than those, and both lead to networks that end alike.
fn lead_alike(
    alloc: Global,
    accepted: &Accepted,
    some: &[Event],
    others: &[Event],
) -> Result<bool, Fail> {
    let left = replayed(alloc, accepted, some)?;
    let right = replayed(alloc, accepted, others)?;
    Ok(some != others && end_alike(&left, &right))
}

#[test]
fn either_guard_first_gives_the_same_views(rt: HostRuntime) -> Result<(), Fail> {
    let accepted = accept(rt.alloc(), CHOICE)?;
    let c_first = choose_both(rt.alloc(), &accepted, 0, 1)?;
    let d_first = choose_both(rt.alloc(), &accepted, 1, 0)?;
    assert!(rt;
        lead_alike(
            rt.alloc(),
            &accepted,
            c_first.as_slice(),
            d_first.as_slice()
        )?
    );
    Ok(())
}
