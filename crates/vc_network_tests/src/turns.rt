//! The turns of a switch by itself.
use crate::networks::{SQUARES, accept};
use std::alloc::Global;
use std::test::Fail;
use vc_core::{Act, Actor, Turn, actors};
use vc_tokens::Token;

/// What comes to a switch, and what it does at its turn.
#[derive(Clone, Copy)]
struct Row<'a> {
    /// The tokens that come, each by its link.
    comes: &'a [(u8, Token)],
    /// Has a bit for each link that has room.
    room: u32,
    does: Turn,
}

/// A row in which nothing comes.
macro_rules! row {
    ($room:literal, $does:expr) => {
        row!([], $room, $does)
    };
    ([$($token:expr),*], $room:literal, $does:expr) => {
        Row {
            comes: &[$($token),*],
            room: $room,
            does: $does,
        }
    };
}

/// A byte that comes by link 0.
macro_rules! byte {
    ($byte:literal) => {
        (0, Token::Byte($byte))
    };
}

const PASSES: Turn = Turn::Local(Act::Pass { link: 0 });

const BINDS: Turn = Turn::Local(Act::Route {
    input: 0,
    output: 4,
});

/// The switch grants eight places of link 0.
const GRANTS_BY_0: Turn = Turn::Put {
    link: 0,
    act: Act::Fct { link: 0 },
    item: Token::Fct,
};

const GRANTS_BY_4: Turn = Turn::Put {
    link: 4,
    act: Act::Fct { link: 4 },
    item: Token::Fct,
};

/// The switch puts a byte by link 4.
macro_rules! puts {
    ($byte:literal) => {
        Turn::Put {
            link: 4,
            act: Act::Put { link: 4 },
            item: Token::Byte($byte),
        }
    };
}

/// The turns of switch s, to which the bytes of a piece come by link 0. It passes a byte rather than it binds, it binds rather than it
/// puts, and it puts rather than it grants; and it puts the first byte with no mark there.
const TURNS: &[Row] = &[
    row!(1, GRANTS_BY_0),
    row!(1, GRANTS_BY_0),
    row!(1, Turn::Idle),
    row!([byte!(0)], 1, PASSES),
    row!([byte!(10), byte!(0)], 1, PASSES),
    row!(1, PASSES),
    row!(1, BINDS),
    row!(1, Turn::Idle),
    row!(16, GRANTS_BY_4),
    row!(16, GRANTS_BY_4),
    row!([(4, Token::Fct)], 1, Turn::Idle),
    row!(16, puts!(0)),
    row!(
        [byte!(1), byte!(3), byte!(0), byte!(0), byte!(0)],
        16,
        PASSES
    ),
    row!(17, PASSES),
    row!(17, PASSES),
    row!(17, PASSES),
    row!(17, PASSES),
    row!(17, puts!(10)),
    row!(17, puts!(0)),
    row!(17, puts!(1)),
    row!(17, puts!(3)),
    row!(1, GRANTS_BY_0),
    row!(17, puts!(0)),
];

/// Whether the actor does as the row says.
fn does(actor: &mut Actor, row: Row) -> Result<bool, Fail> {
    for (link, token) in row.comes {
        if actor.may_take(*link) {
            actor.take(*link, token, 0)?;
        }
    }
    Ok(actor.turn(row.room)? == row.does)
}

/// The place of the first row that the actor of this number does not do.
fn wrong_row(alloc: Global, number: usize, rows: &[Row]) -> Result<Option<usize>, Fail> {
    let accepted = accept(alloc, SQUARES)?;
    let mut all = actors(alloc, &accepted)?;
    let actor = all.get_mut(number).ok_or("an actor")?;
    for (place, row) in rows.iter().enumerate() {
        if !does(actor, *row)? {
            return Ok(Some(place));
        }
    }
    Ok(None)
}

#[test]
fn a_switch_makes_its_turns_in_order(rt: HostRuntime) -> Result<(), Fail> {
    assert_eq!(rt; wrong_row(rt.alloc(), 2, TURNS)?, None);
    Ok(())
}
