//! Packets through a switch of four rows: headers 0 to 9 leave by link 0, 10 to 19 by links 4 to 7, 20 to 99 by link 8, and 100 to 103
//! are portals or leave by link 9.
ghost use Rattle.std.specs.Prelude.{◌<◌};
ghost use Rattle.std.specs.List.{AllByRecursion};
ghost use Rattle.vc_switch.specs.Opening.{IsRandomInput};

use sqlite_items::Items;
use std::alloc::Global;
use std::test::Fail;
use vc_labels::{Action, Row, Table};
use vc_packets::Memory;
use vc_switch::{RandomInput, Switch, SwitchPlan};
use vc_tokens::Token;

/// A row of a table.
fn row(lower: u32, limit: u32, action: Action) -> Row {
    Row {
        lower,
        limit,
        action,
    }
}

/// A switch with this last row, that deletes by these links, and puts random headers at these inputs.
fn switch(
    alloc: Global,
    last: Action,
    delete: &[u8],
    random: &[RandomInput],
) -> Result<Switch, Fail>
    requires delete { AllByRecursion (λ link. link < 32) delete.now }
    requires random { AllByRecursion IsRandomInput random.now }
{
    let rows = [
        row(0, 10, Action::Out { first: 0, last: 0 }),
        row(10, 20, Action::Out { first: 4, last: 7 }),
        row(20, 100, Action::Out { first: 8, last: 8 }),
        row(100, 104, last),
    ];
    match Table::new(Items::from_slice(alloc, &rows)?) {
        Err(_) => Err("a lawful table")?,
        Ok(table) => {
            let plan = SwitchPlan {
                table,
                delete,
                random,
            };
            Ok(Switch::new(alloc, plan, 44)?)
        }
    }
}

/// A token comes to a link that has granted a place for it, and passes.
fn come(switch: &mut Switch, link: u8, token: Token, word: u32) -> Result<(), Memory>
    requires { link < 32 }
{
    if switch.may_grant(link) {
        switch.grant(link);
    }
    switch.take(link, token, word)?;
    if switch.may_pass(link) {
        switch.pass(link)?;
    }
    Ok(())
}

/// Bytes come to a link, each with a word.
fn bytes(switch: &mut Switch, link: u8, bytes: &[u8], word: u32) -> Result<(), Memory>
    requires { link < 32 }
{
    for byte in bytes {
        come(switch, link, Token::Byte(*byte), word)?;
    }
    Ok(())
}

/// Binds an input's packet to an output, where that may be.
fn route(switch: &mut Switch, input: u8, output: u8) -> bool
    requires input { input < 32 }
    requires output { output < 32 }
{
    let may = switch.may_route(input, output);
    if may {
        switch.route(input, output);
    }
    may
}

/// The next token that leaves by an output, where there is one.
fn put(switch: &mut Switch, output: u8) -> Option<Token>
    requires { output < 32 }
{
    if switch.may_put(output) {
        Some(switch.put(output))
    } else {
        None
    }
}

/// What happens at a switch, or what it shows. The first number is a link.
#[derive(Clone, Copy)]
enum Step<'a> {
    /// These bytes come, each with this word, and pass.
    Bytes(u8, &'a [u8], u32),
    /// This token comes and passes.
    Comes(u8, Token),
    /// This token comes, and none passes.
    Takes(u8, Token),
    /// The switch has no such link: no token comes, passes or leaves there, and no packet may be bound to it.
    Lacks(u8),
    /// The packet that came here may leave by a link from the first to the second, or by none.
    Chooses(u8, Option<(u8, u8)>),
    /// The packet that came here is bound to the second link, or may not be.
    Binds(u8, u8, bool),
    /// This token leaves here, or none.
    Puts(u8, Option<Token>),
    /// No packet is bound to this link.
    Free(u8),
    /// So many tokens and packets were dropped.
    Lost(u64),
}

/// Whether each question about a link is answered as of one that is not there.
fn lacks(s: &Switch, link: u8) -> bool {
    let asks = [
        s.may_take(link),
        s.may_pass(link),
        s.may_grant(link),
        s.may_put(link),
        s.free(link),
        s.may_route(link, 0),
        s.may_route(0, link),
    ];
    s.choices(link).is_none() && !asks.contains(&true)
}

/// Whether the switch takes this step.
fn takes(s: &mut Switch, step: Step) -> Result<bool, Memory> {
    match step {
        Step::Bytes(link, came, word) if link < 32 => {
            bytes(s, link, came, word)?;
            Ok(true)
        }
        Step::Comes(link, token) if link < 32 => {
            come(s, link, token, 0)?;
            Ok(true)
        }
        Step::Takes(link, token) if link < 32 => {
            let may = s.may_take(link);
            s.take(link, token, 0)?;
            Ok(may && !s.may_pass(link))
        }
        Step::Lacks(link) => Ok(lacks(s, link)),
        Step::Chooses(link, group) => Ok(s.choices(link) == group),
        Step::Binds(input, output, may) if input < 32 && output < 32 => {
            Ok(route(s, input, output) == may)
        }
        Step::Puts(link, token) if link < 32 => Ok(put(s, link) == token),
        Step::Free(link) => Ok(s.free(link)),
        Step::Lost(count) => Ok(s.lost() == count),
        _ => Ok(false),
    }
}

/// The place of the first step that the switch does not take.
fn wrong_step(switch: Result<Switch, Fail>, steps: &[Step]) -> Result<Option<usize>, Fail> {
    let mut switch = switch?;
    for (place, step) in steps.iter().enumerate() {
        if !takes(&mut switch, *step)? {
            return Ok(Some(place));
        }
    }
    Ok(None)
}

const BEYOND: &[Step] = &[
    Step::Bytes(0, &[0, 1], 0),
    Step::Chooses(0, Some((0, 0))),
    Step::Lacks(32),
    Step::Lacks(255),
    Step::Free(31),
];

#[test]
fn nothing_is_done_beyond_the_links(rt: HostRuntime) -> Result<(), Fail> {
    let s = switch(rt.alloc(), Action::Portal, &[], &[]);
    assert_eq!(rt; wrong_step(s, BEYOND)?, None);
    Ok(())
}

const DELETES: &[Step] = &[
    Step::Bytes(4, &[0, 1, 0, 9, 104], 0),
    Step::Chooses(4, Some((0, 0))),
    Step::Binds(4, 0, true),
    Step::Puts(0, None),
    Step::Takes(0, Token::Fct),
    Step::Puts(0, Some(Token::Byte(0))),
    Step::Puts(0, Some(Token::Byte(9))),
    Step::Puts(0, Some(Token::Byte(104))),
    Step::Puts(0, None),
    Step::Comes(4, Token::Eom),
    Step::Puts(0, Some(Token::Eom)),
    Step::Free(0),
    Step::Lost(0),
];

#[test]
fn a_link_deletes_the_front_header(rt: HostRuntime) -> Result<(), Fail> {
    let s = switch(rt.alloc(), Action::Portal, &[0], &[]);
    assert_eq!(rt; wrong_step(s, DELETES)?, None);
    Ok(())
}

const FALLS_AWAY: &[Step] = &[
    Step::Bytes(0, &[0, 50], 7),
    Step::Chooses(0, Some((8, 8))),
    Step::Binds(0, 8, true),
    Step::Takes(8, Token::Fct),
    Step::Puts(8, Some(Token::Byte(0))),
    Step::Puts(8, Some(Token::Byte(50))),
];

#[test]
fn a_random_header_goes_in_front_and_falls_away(rt: HostRuntime) -> Result<(), Fail> {
    let drawn = RandomInput {
        link: 0,
        lower: 100,
        limit: 104,
    };
    let s = switch(rt.alloc(), Action::Portal, &[], &[drawn]);
    assert_eq!(rt; wrong_step(s, FALLS_AWAY)?, None);
    Ok(())
}

const IS_DRAWN: &[Step] = &[
    Step::Bytes(3, &[7], 6),
    Step::Chooses(3, Some((9, 9))),
    Step::Binds(3, 9, true),
    Step::Takes(9, Token::Fct),
    Step::Puts(9, Some(Token::Byte(0))),
    Step::Puts(9, Some(Token::Byte(102))),
    Step::Puts(9, Some(Token::Byte(7))),
];

#[test]
fn a_random_header_is_drawn_by_the_word(rt: HostRuntime) -> Result<(), Fail> {
    let drawn = RandomInput {
        link: 3,
        lower: 100,
        limit: 104,
    };
    let s = switch(rt.alloc(), Action::Out { first: 9, last: 9 }, &[], &[drawn]);
    assert_eq!(rt; wrong_step(s, IS_DRAWN)?, None);
    Ok(())
}

const GROUP: &[Step] = &[
    Step::Bytes(0, &[0, 10], 0),
    Step::Bytes(1, &[0, 11], 0),
    Step::Binds(0, 4, true),
    Step::Chooses(0, None),
    Step::Chooses(1, Some((4, 7))),
    Step::Binds(1, 4, false),
    Step::Binds(1, 8, false),
    Step::Binds(1, 5, true),
    Step::Takes(5, Token::Fct),
    Step::Puts(4, None),
    Step::Puts(5, Some(Token::Byte(0))),
    Step::Puts(5, Some(Token::Byte(11))),
];

#[test]
fn a_group_has_a_second_link(rt: HostRuntime) -> Result<(), Fail> {
    let s = switch(rt.alloc(), Action::Portal, &[], &[]);
    assert_eq!(rt; wrong_step(s, GROUP)?, None);
    Ok(())
}

const BUSY: &[Step] = &[
    Step::Bytes(4, &[0, 1], 0),
    Step::Comes(4, Token::Eop),
    Step::Bytes(5, &[0, 2], 0),
    Step::Comes(5, Token::Eop),
    Step::Binds(4, 0, true),
    Step::Binds(5, 0, false),
    Step::Takes(0, Token::Fct),
    Step::Puts(0, Some(Token::Byte(0))),
    Step::Puts(0, Some(Token::Byte(1))),
    Step::Binds(5, 0, false),
    Step::Puts(0, Some(Token::Eop)),
    Step::Binds(5, 0, true),
    Step::Puts(0, Some(Token::Byte(0))),
    Step::Puts(0, Some(Token::Byte(2))),
    Step::Lost(0),
];

#[test]
fn a_packet_waits_for_a_busy_link(rt: HostRuntime) -> Result<(), Fail> {
    let s = switch(rt.alloc(), Action::Portal, &[], &[]);
    assert_eq!(rt; wrong_step(s, BUSY)?, None);
    Ok(())
}

const DROPS: &[Step] = &[
    Step::Takes(0, Token::Byte(7)),
    Step::Lost(1),
    Step::Bytes(0, &[1, 0, 7], 0),
    Step::Chooses(0, None),
    Step::Comes(0, Token::Eom),
    Step::Lost(2),
    Step::Bytes(0, &[0, 1], 0),
    Step::Chooses(0, Some((0, 0))),
];

#[test]
fn what_is_not_due_or_has_no_group_is_dropped(rt: HostRuntime) -> Result<(), Fail> {
    let s = switch(rt.alloc(), Action::Portal, &[], &[]);
    assert_eq!(rt; wrong_step(s, DROPS)?, None);
    Ok(())
}
