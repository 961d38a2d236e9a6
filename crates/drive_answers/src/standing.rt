//! The text of a value as it stands in a line, by the line's tokens.
ghost use Rattle.std.specs.Prelude.{◌≡◌, ◌++◌, ◌∷◌, ◌&&◌, not, false, OnOk, IfOk, drop, codes};
ghost use Rattle.std.specs.Str.{bytes_eq};
ghost use Rattle.json.specs.Value.{value_view, items_view, members_view};
ghost use Rattle.drive_answers.specs.Modes.{texts_of};
ghost use Rattle.drive_answers.specs.Standing.{behind, behind_items, behind_members, standing, standing_items, standing_members, standing_in, first_piece, is_named, comma_if};

use drive_events::Payload;
use json::Value;
use std::alloc::{AllocError, Global};

/// The first token, and those behind it. Behind the last there is none.
pub(crate) fn behind_first<'p, 'a>(pieces: &'p [&'a [u8]]) -> &'p [&'a [u8]]
    ensures { texts_of result.now ≡ drop 1 (texts_of pieces.now) }
{
    match pieces {
        [] => pieces,
        [_, rest @ ..] => rest,
    }
}

/// The tokens behind a value that stands first among these.
#[cycle(behind)]
pub(crate) fn behind<'p, 'a>(value: &Value<'_>, pieces: &'p [&'a [u8]]) -> &'p [&'a [u8]]
    ensures { texts_of result.now ≡ behind (value_view value.now) (texts_of pieces.now) }
{
    let rest = behind_first(pieces);
    match value {
        Value::Array(items) => behind_items(items, rest),
        Value::Object(members) => behind_members(members, rest),
        _ => rest,
    }
}

#[cycle(behind)]
fn behind_items<'p, 'a>(items: &Vec<Value<'_>>, pieces: &'p [&'a [u8]]) -> &'p [&'a [u8]]
    ensures { texts_of result.now ≡ behind_items (items_view items.now.items) (texts_of pieces.now) }
{
    let mut rest = pieces;
    for item in items {
        rest = behind(item, rest);
    }
    behind_first(rest)
}

#[cycle(behind)]
fn behind_members<'p, 'a>(
    members: &Vec<(&str, Value<'_>)>,
    pieces: &'p [&'a [u8]],
) -> &'p [&'a [u8]]
    ensures { texts_of result.now ≡ behind_members (members_view members.now.items) (texts_of pieces.now) }
{
    let mut rest = pieces;
    for member in members {
        rest = behind(&member.1, behind_first(rest));
    }
    behind_first(rest)
}

/// The text of the last member `payload` of a value that stands first among these tokens, where it has one.
#[tactic(auto, using(crate::proofs::Payloads::taken, crate::proofs::Payloads::passed))]
pub(crate) fn payload_in(
    alloc: Global,
    value: &Value<'_>,
    pieces: &[&[u8]],
) -> Result<Option<Payload>, AllocError>
    ensures { IfOk result (λ payload. payload ≡ standing_in (codes "payload") (value_view value.now) (texts_of pieces.now)) }
{
    let Value::Object(members) = value else {
        return Ok(None);
    };
    let mut left = members.as_slice();
    let mut rest = behind_first(pieces);
    while let [member, others @ ..] = left {
        let inside = behind_first(rest);
        if is_last(member.0, "payload", others) {
            return Ok(Some(payload_of(alloc, &member.1, inside)?));
        }
        rest = behind(&member.1, inside);
        left = others;
    }
    Ok(None)
}

/// The text of a value that stands first among these tokens.
fn payload_of(alloc: Global, value: &Value<'_>, pieces: &[&[u8]]) -> Result<Payload, AllocError>
    ensures { IfOk result (λ payload. payload ≡ standing (value_view value.now) (texts_of pieces.now)) }
{
    let mut text = Vec::new(alloc);
    push_standing(&mut text, value, pieces)?;
    Ok(Payload::of(text))
}

/// Whether the name is this one, and none of the members behind has it.
fn is_last(name: &str, wanted: &str, others: &[(&str, Value<'_>)]) -> bool
    ensures { result ≡ (bytes_eq name.now wanted.now && not (is_named wanted.now (members_view others.now))) }
{
    name == wanted && !is_named(wanted, others)
}

/// Whether one of these members has the name.
fn is_named(name: &str, members: &[(&str, Value<'_>)]) -> bool
    ensures { result ≡ is_named name.now (members_view members.now) }
{
    for member in members {
        if member.0 == name {
            return true;
        }
    }
    false
}

/// Appends the text of a value that stands first among these tokens.
#[cycle(standing)]
fn push_standing(text: &mut Vec<u8>, value: &Value<'_>, pieces: &[&[u8]]) -> Result<(), AllocError>
    ensures { OnOk result (text.new.items ≡ text.old.items ++ standing (value_view value.now) (texts_of pieces.now)) }
{
    match value {
        Value::Array(items) => {
            text.push(b'[')?;
            push_items(text, items, behind_first(pieces))
        }
        Value::Object(members) => {
            text.push(b'{')?;
            push_members(text, members, behind_first(pieces))
        }
        _ => push_first(text, pieces),
    }
}

/// Appends the first of these tokens.
fn push_first(text: &mut Vec<u8>, pieces: &[&[u8]]) -> Result<(), AllocError>
    ensures { OnOk result (text.new.items ≡ text.old.items ++ first_piece (texts_of pieces.now)) }
{
    match pieces.first() {
        Some(piece) => text.extend_from_slice(piece),
        None => Ok(()),
    }
}

/// Appends items, and the bracket that closes them.
#[cycle(standing)]
fn push_items(
    text: &mut Vec<u8>,
    items: &Vec<Value<'_>>,
    pieces: &[&[u8]],
) -> Result<(), AllocError>
    ensures { OnOk result (text.new.items ≡ text.old.items ++ standing_items false (items_view items.now.items) (texts_of pieces.now)) }
{
    let mut rest = pieces;
    let mut later = false;
    for item in items {
        push_comma(text, later)?;
        push_standing(text, item, rest)?;
        rest = behind(item, rest);
        later = true;
    }
    text.push(b']')?;
    Ok(())
}

/// Appends a comma, where something stands before.
fn push_comma(text: &mut Vec<u8>, later: bool) -> Result<(), AllocError>
    ensures { OnOk result (text.new.items ≡ text.old.items ++ comma_if later) }
{
    if later {
        text.push(b',')?;
    }
    Ok(())
}

/// Appends members, of two of one name the later, and the bracket that closes them.
#[cycle(standing)]
fn push_members(
    text: &mut Vec<u8>,
    members: &Vec<(&str, Value<'_>)>,
    pieces: &[&[u8]],
) -> Result<(), AllocError>
    ensures { OnOk result (text.new.items ≡ text.old.items ++ standing_members false (members_view members.now.items) (texts_of pieces.now)) }
{
    let mut left = members.as_slice();
    let mut rest = pieces;
    let mut later = false;
    while let [member, others @ ..] = left {
        if !is_named(member.0, others) {
            push_comma(text, later)?;
            push_member(text, member, rest)?;
            later = true;
        }
        rest = behind(&member.1, behind_first(rest));
        left = others;
    }
    text.push(b'}')?;
    Ok(())
}

/// Appends a member: its name as it stands, and its value.
#[cycle(standing)]
fn push_member(
    text: &mut Vec<u8>,
    member: &(&str, Value<'_>),
    pieces: &[&[u8]],
) -> Result<(), AllocError>
    ensures { OnOk result (text.new.items ≡ text.old.items
        ++ (first_piece (texts_of pieces.now) ++ 58 ∷ standing (value_view member.now.1) (drop 1 (texts_of pieces.now)))) }
{
    push_first(text, pieces)?;
    text.push(b':')?;
    push_standing(text, &member.1, behind_first(pieces))
}
