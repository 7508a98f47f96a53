//! The text of an event.
ghost use Rattle.std.specs.Prelude.{◌≡◌, ◌++◌, ◌∷◌, codes, decimal, OnOk, OnErr};
ghost use Rattle.vc_plan.specs.Names.{channel_name};
ghost use Rattle.vc_trace.specs.EventText.{act_words, event_line, guard_word as word_of_guard, move_words, spaced};
ghost use Rattle.vc_trace.specs.Private.EventText.{site_text, spaced_word, word_text, words_text};
ghost use Rattle.vc_text.specs.Streams.{AppendsFront};
ghost use Rattle.vc_text.specs.Pieces.{Passes};

use crate::word::Word;
use itoa::Buffer;
use std::io::Write;
use vc_core::{Act, Event};
use vc_occam::Move;
use vc_plan::Plan;
use vc_text::{Piece, WriteFailed, put};

fn number<'a>(n: u16) -> Word<'a>
    ensures { word_text result ≡ decimal n }
{
    Word::Number(u64::from(n))
}

fn link_word<'a>(link: u8) -> Word<'a>
    ensures { word_text result ≡ decimal link }
{
    Word::Number(u64::from(link))
}

fn channel_word(plan: &Plan, chan: u16) -> Word<'_>
    ensures { word_text result ≡ channel_name plan.now chan }
{
    Word::Text(plan.channel_name(usize::from(chan)))
}

/// The place of a guard, or `-` for none.
fn guard_word<'a>(guard: Option<u16>) -> Word<'a>
    ensures { word_text result ≡ word_of_guard guard }
{
    match guard {
        Some(guard) => number(guard),
        None => Word::Text(b"-"),
    }
}

fn put_word<W: Write>(piece: &mut Piece, writer: &mut W, word: &Word<'_>) -> Result<(), WriteFailed>
    ensures ok { OnOk result (Passes (W.contents writer.old) piece.old.items
        (W.contents writer.new) piece.new.items (word_text word.now)) }
    ensures err { OnErr result (AppendsFront (W.contents writer.old)
        (W.contents writer.new) (piece.old.items ++ (word_text word.now))) }
{
    match word {
        Word::Text(text) => put(piece, writer, text),
        Word::Number(n) => {
            let mut buffer = Buffer::new();
            put(piece, writer, buffer.format(*n).as_bytes())
        }
    }
}

/// A word after a space.
fn put_spaced<W: Write>(
    piece: &mut Piece,
    writer: &mut W,
    word: &Word<'_>,
) -> Result<(), WriteFailed>
    ensures ok { OnOk result (Passes (W.contents writer.old) piece.old.items
        (W.contents writer.new) piece.new.items (spaced_word word.now)) }
    ensures err { OnErr result (AppendsFront (W.contents writer.old)
        (W.contents writer.new) (piece.old.items ++ (spaced_word word.now))) }
{
    put(piece, writer, b" ")?;
    put_word(piece, writer, word)
}

/// Words, each after a space.
fn put_words<W: Write>(
    piece: &mut Piece,
    writer: &mut W,
    words: &[Word<'_>],
) -> Result<(), WriteFailed>
    ensures ok { OnOk result (Passes (W.contents writer.old) piece.old.items
        (W.contents writer.new) piece.new.items (words_text words.now)) }
    ensures err { OnErr result (AppendsFront (W.contents writer.old)
        (W.contents writer.new) (piece.old.items ++ (words_text words.now))) }
{
    for word in words {
        put_spaced(piece, writer, word)?;
    }
    Ok(())
}

/// The word for a move of a site on a channel, the site and the channel, each after a space.
fn put_site<W: Write>(
    piece: &mut Piece,
    writer: &mut W,
    plan: &Plan,
    word: &[u8],
    site: u16,
    chan: u16,
) -> Result<(), WriteFailed>
    ensures ok { OnOk result (Passes (W.contents writer.old) piece.old.items
        (W.contents writer.new) piece.new.items (site_text plan.now word.now site chan)) }
    ensures err { OnErr result (AppendsFront (W.contents writer.old)
        (W.contents writer.new) (piece.old.items ++ (site_text plan.now word.now site chan))) }
{
    let words = [Word::Text(word), number(site), channel_word(plan, chan)];
    put_words(piece, writer, &words)
}

/// The words of a move of a process, each after a space.
fn put_move<W: Write>(
    piece: &mut Piece,
    writer: &mut W,
    plan: &Plan,
    made: Move,
) -> Result<(), WriteFailed>
    ensures ok { OnOk result (Passes (W.contents writer.old) piece.old.items
        (W.contents writer.new) piece.new.items (spaced (move_words plan.now made))) }
    ensures err { OnErr result (AppendsFront (W.contents writer.old)
        (W.contents writer.new) (piece.old.items ++ (spaced (move_words plan.now made)))) }
{
    match made {
        Move::Offer { site, chan } => put_site(piece, writer, plan, b"offer", site, chan),
        Move::Want { site, chan } => put_site(piece, writer, plan, b"want", site, chan),
        Move::Choose { site, guard, chan } => {
            let (site, guard) = (number(site), number(guard));
            let words = [Word::Text(b"choose"), site, guard, channel_word(plan, chan)];
            put_words(piece, writer, &words)
        }
        Move::Stopch { site, chan } => put_site(piece, writer, plan, b"stopch", site, chan),
        Move::Inner {
            sender,
            receiver,
            guard,
            chan,
        } => {
            let words = [
                Word::Text(b"inner"),
                number(sender),
                number(receiver),
                guard_word(guard),
                channel_word(plan, chan),
            ];
            put_words(piece, writer, &words)
        }
        Move::Quiet { site } => {
            let words = [Word::Text(b"quiet"), number(site)];
            put_words(piece, writer, &words)
        }
    }
}

/// The word `proc` and those of a move of a process, each after a space.
fn put_proc<W: Write>(
    piece: &mut Piece,
    writer: &mut W,
    plan: &Plan,
    made: Move,
) -> Result<(), WriteFailed>
    ensures ok { OnOk result
        (Passes (W.contents writer.old) piece.old.items (W.contents writer.new) piece.new.items
        (spaced (codes "proc" ∷ move_words plan.now made))) }
    ensures err { OnErr result
        (AppendsFront (W.contents writer.old) (W.contents writer.new)
        (piece.old.items ++ (spaced (codes "proc" ∷ move_words plan.now made)))) }
{
    put(piece, writer, b" proc")?;
    put_move(piece, writer, plan, made)
}

/// The words of an act, each after a space.
fn put_act<W: Write>(
    piece: &mut Piece,
    writer: &mut W,
    plan: &Plan,
    act: Act,
) -> Result<(), WriteFailed>
    ensures ok { OnOk result (Passes (W.contents writer.old) piece.old.items
        (W.contents writer.new) piece.new.items (spaced (act_words plan.now act))) }
    ensures err { OnErr result (AppendsFront (W.contents writer.old)
        (W.contents writer.new) (piece.old.items ++ (spaced (act_words plan.now act)))) }
{
    match act {
        Act::Proc(made) => put_proc(piece, writer, plan, made),
        Act::Take { link, word } => {
            let words = [
                Word::Text(b"take"),
                link_word(link),
                Word::Number(u64::from(word)),
            ];
            put_words(piece, writer, &words)
        }
        Act::Put { link } => put_words(piece, writer, &[Word::Text(b"put"), link_word(link)]),
        Act::Route { input, output } => {
            let words = [Word::Text(b"route"), link_word(input), link_word(output)];
            put_words(piece, writer, &words)
        }
        Act::Fct { link } => put_words(piece, writer, &[Word::Text(b"fct"), link_word(link)]),
        Act::Pass { link } => put_words(piece, writer, &[Word::Text(b"pass"), link_word(link)]),
    }
}

/// The line of an event.
pub(crate) fn put_event<W: Write>(
    piece: &mut Piece,
    writer: &mut W,
    plan: &Plan,
    event: &Event,
) -> Result<(), WriteFailed>
    ensures ok { OnOk result (Passes (W.contents writer.old) piece.old.items
        (W.contents writer.new) piece.new.items (event_line plan.now event.now)) }
    ensures err { OnErr result (AppendsFront (W.contents writer.old)
        (W.contents writer.new) (piece.old.items ++ (event_line plan.now event.now))) }
{
    put(piece, writer, b"event ")?;
    put(piece, writer, plan.actor_name(usize::from(event.actor)))?;
    put_act(piece, writer, plan, event.act)?;
    put(piece, writer, b"\n")
}
