//! Where the parts of a JSON text are.
ghost use Rattle.std.specs.Prelude.{◌≡◌, ◌+◌, ◌<◌, ◌≤◌, ◌∷◌, [], drop, length, slice_index, MatchOption, IfSome};
ghost use Rattle.vc_explain.specs.declared.quoting.Quoting.TheVariants.{Outside};
ghost use Rattle.vc_explain.specs.Parts.{is_blank as is_blank_byte, past_blanks as text_past_blanks, opens as opens_by, closes as closes_by, parts_after, past_colon as text_past_colon, hex_digit as hex_digit_of, is_escape as is_escape_at, escaped as escaped_at, spells as text_spells, is_named as text_is_named, item as item_of, member as member_of, part as part_of, value_at as text_at_path};

use crate::quoting::Quoting;
use vc_reader::Step;

fn is_blank(byte: u8) -> bool
    ensures { result ≡ is_blank_byte byte }
{
    byte == b' ' || byte == b'\t' || byte == b'\n' || byte == b'\r'
}

/// The text from its first byte on that is no white space.
fn past_blanks(text: &[u8]) -> &[u8]
    ensures { result.now ≡ text_past_blanks text.now }
{
    let mut rest = text;
    while let Some((byte, tail)) = rest.split_first() {
        if !is_blank(*byte) {
            return rest;
        }
        rest = tail;
    }
    rest
}

fn opens(byte: u8) -> bool
    ensures { result ≡ opens_by byte }
{
    byte == b'[' || byte == b'{'
}

fn closes(byte: u8) -> bool
    ensures { result ≡ closes_by byte }
{
    byte == b']' || byte == b'}'
}

/// The text after the next comma outside of strings and inner brackets, where there is one before the bracket around it closes.
fn next_part(text: &[u8]) -> Option<&[u8]>
    ensures parts { MatchOption result (parts_after Outside 0 text.now ≡ [])
        (λ part. parts_after Outside 0 text.now ≡ part.now ∷ parts_after Outside 0 part.now) }
    ensures shorter { IfSome result (λ part. length part.now < length text.now) }
{
    let mut rest = text;
    let mut quoting = Quoting::Outside;
    let mut depth = 0usize;
    while let Some((byte, tail)) = rest.split_first() {
        if quoting.is_outside() {
            if depth == 0 && *byte == b',' {
                return Some(tail);
            }
            if depth == 0 && closes(*byte) {
                return None;
            }
            if opens(*byte) {
                depth += 1;
            } else if closes(*byte) {
                depth -= 1;
            }
        }
        quoting = quoting.after(*byte);
        rest = tail;
    }
    None
}

/// The text after its first colon outside of strings.
fn past_colon(text: &[u8]) -> &[u8]
    ensures { result.now ≡ text_past_colon Outside text.now }
{
    let mut rest = text;
    let mut quoting = Quoting::Outside;
    while let Some((byte, tail)) = rest.split_first() {
        if quoting.is_outside() && *byte == b':' {
            return tail;
        }
        quoting = quoting.after(*byte);
        rest = tail;
    }
    rest
}

fn byte_at(text: &[u8], n: usize) -> u8
    ensures { result ≡ slice_index text.now n }
{
    match text.get(n) {
        Some(byte) => *byte,
        None => 0,
    }
}

/// The text without its first n bytes.
fn without(text: &[u8], n: usize) -> &[u8]
    ensures { result.now ≡ drop n text.now }
{
    match text.get(n..) {
        Some(rest) => rest,
        None => &[],
    }
}

/// The number of a hexadecimal digit.
fn hex_digit(byte: u8) -> u32
    ensures value { result ≡ hex_digit_of byte }
    ensures small { result ≤ 255 }
{
    let digit = if byte <= b'9' {
        byte.saturating_sub(b'0')
    } else if byte <= b'F' {
        byte.saturating_sub(b'A' - 10)
    } else {
        byte.saturating_sub(b'a' - 10)
    };
    u32::from(digit)
}

fn is_escape(text: &[u8]) -> bool
    ensures { result ≡ is_escape_at text.now }
{
    byte_at(text, 0) == b'\\' && byte_at(text, 1) == b'u'
}

/// The number that four hexadecimal digits after `\u` write.
fn escaped(text: &[u8]) -> u32
    ensures { result ≡ escaped_at text.now }
{
    4096 * hex_digit(byte_at(text, 2))
        + 256 * hex_digit(byte_at(text, 3))
        + 16 * hex_digit(byte_at(text, 4))
        + hex_digit(byte_at(text, 5))
}

/// Whether the string that goes on so is this name.
fn spells(name: &[u8], text: &[u8]) -> bool
    ensures { result ≡ text_spells name.now text.now }
{
    let mut rest = text;
    let mut left = name;
    while let Some((byte, more)) = left.split_first() {
        if is_escape(rest) {
            if escaped(rest) != u32::from(*byte) {
                return false;
            }
            rest = without(rest, 6);
        } else {
            if byte_at(rest, 0) != *byte {
                return false;
            }
            rest = without(rest, 1);
        }
        left = more;
    }
    byte_at(rest, 0) == b'"'
}

fn is_named(name: &[u8], member: &[u8]) -> bool
    ensures { result ≡ text_is_named name.now member.now }
{
    spells(name, without(past_blanks(member), 1))
}

/// Item n of the array that the text begins with.
fn item(n: usize, text: &[u8]) -> &[u8]
    ensures { result.now ≡ item_of n text.now }
{
    let mut part = without(past_blanks(text), 1);
    for _ in 0..n {
        match next_part(part) {
            Some(next) => part = next,
            None => return &[],
        }
    }
    part
}

/// The value of the last member of this name in the object that the text begins with.
fn member<'a>(name: &[u8], text: &'a [u8]) -> &'a [u8]
    ensures { result.now ≡ member_of name.now text.now }
{
    let mut part = without(past_blanks(text), 1);
    let mut found: &'a [u8] = if is_named(name, part) { part } else { &[] };
    while let Some(next) = next_part(part) {
        if is_named(name, next) {
            found = next;
        }
        part = next;
    }
    past_colon(found)
}

/// The part to which a step leads from the value that the text begins with.
fn part(step: Step, text: &[u8]) -> &[u8]
    ensures { result.now ≡ part_of step text.now }
{
    match step {
        Step::Field(word) => member(word.text().as_bytes(), text),
        Step::Index(n) => item(n, text),
    }
}

/// The text from the value on to which a path leads.
pub(crate) fn value_at<'a>(path: &[Step], text: &'a [u8]) -> &'a [u8]
    ensures { result.now ≡ text_at_path path.now text.now }
{
    let mut left = path;
    let mut rest = text;
    while let Some((step, steps)) = left.split_first() {
        rest = part(*step, rest);
        left = steps;
    }
    past_blanks(rest)
}
