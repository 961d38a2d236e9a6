//! The tokens of a JSON text as they stand there.
ghost use Rattle.std.specs.Prelude.{◌≡◌, ◌≤◌, ◌<◌, ◌++◌, IfOk, OnOk, length, get_or, cond, slice_range, [], ◌∷◌};
ghost use Rattle.json.specs.Lex.{class};
ghost use Rattle.drive_answers.specs.Pieces.{pieces, bracket, ended, last_piece, mode_after};
ghost use Rattle.drive_answers.specs.Modes.{class_in, mode_of, is_begun, begun_at, texts_of};

use std::alloc::{AllocError, Global};

/// What a byte is to JSON.
#[derive(Clone, Copy)]
pub(crate) enum Class {
    Quote,
    Backslash,
    Operator,
    Space,
    Other,
}

/// Where in a token a text stands.
#[derive(Clone, Copy)]
pub(crate) enum Mode {
    Between,
    InWord,
    InString,
    InEscape,
}

/// The tokens of a JSON text as they stand there, without blanks, commas and colons.
pub(crate) fn pieces_of<'a>(alloc: Global, text: &'a [u8]) -> Result<Vec<&'a [u8]>, AllocError>
    ensures { IfOk result (λ list. texts_of list.items ≡ pieces text.now) }
{
    let mut pieces = Vec::new(alloc);
    let mut mode = Mode::Between;
    let mut begun = 0;
    for place in 0..text.len() {
        let class = class_of(text[place]);
        push_ended(&mut pieces, text, mode, class, begun, place)?;
        let next = mode_after(mode, class);
        begun = begun_after(mode, next, begun, place);
        mode = next;
    }
    push_last(&mut pieces, text, mode, begun)?;
    Ok(pieces)
}

/// What a byte is to JSON.
fn class_of(byte: u8) -> Class
    ensures { class_in result ≡ class byte }
{
    match byte {
        b'"' => Class::Quote,
        b'\\' => Class::Backslash,
        b'{' | b'}' | b'[' | b']' | b':' | b',' => Class::Operator,
        b' ' | b'\t' | b'\n' | b'\r' => Class::Space,
        _ => Class::Other,
    }
}

/// Where in a token the text stands behind a byte of this class.
fn mode_after(mode: Mode, class: Class) -> Mode
    ensures { mode_of result ≡ mode_after (mode_of mode) (class_in class) }
{
    match mode {
        Mode::Between | Mode::InWord => match class {
            Class::Quote => Mode::InString,
            Class::Operator | Class::Space => Mode::Between,
            Class::Backslash | Class::Other => Mode::InWord,
        },
        Mode::InString => match class {
            Class::Quote => Mode::Between,
            Class::Backslash => Mode::InEscape,
            _ => Mode::InString,
        },
        Mode::InEscape => Mode::InString,
    }
}

/// Where the token begins in which the text stands behind the byte at a place.
fn begun_after(mode: Mode, next: Mode, begun: usize, place: usize) -> usize
    ensures { result ≡ cond (is_begun mode next) place begun }
{
    match mode {
        Mode::Between => match next {
            Mode::Between => begun,
            _ => place,
        },
        Mode::InWord => match next {
            Mode::InString => place,
            _ => begun,
        },
        Mode::InString | Mode::InEscape => begun,
    }
}

/// Adds the tokens that end before or with the byte at a place.
fn push_ended<'a>(
    pieces: &mut Vec<&'a [u8]>,
    text: &'a [u8],
    mode: Mode,
    class: Class,
    begun: usize,
    place: usize,
) -> Result<(), AllocError>
    requires order { begun ≤ place }
    requires within { place < length text.now }
    ensures { OnOk result (texts_of pieces.new.items ≡ texts_of pieces.old.items
        ++ ended (mode_of mode) (class_in class) (get_or text.now place 0) (begun_at mode begun place text.now)) }
{
    match mode {
        Mode::Between => match class {
            Class::Operator => push_bracket(pieces, text, place),
            _ => Ok(()),
        },
        Mode::InWord => match class {
            Class::Quote | Class::Space => push_piece(pieces, text, begun, place),
            Class::Operator => {
                push_piece(pieces, text, begun, place)?;
                push_bracket(pieces, text, place)
            }
            Class::Backslash | Class::Other => Ok(()),
        },
        Mode::InString => match class {
            Class::Quote => push_quoted(pieces, text, begun, place),
            _ => Ok(()),
        },
        Mode::InEscape => Ok(()),
    }
}

/// Adds the token that the text ends with, if it ends within one.
fn push_last<'a>(
    pieces: &mut Vec<&'a [u8]>,
    text: &'a [u8],
    mode: Mode,
    begun: usize,
) -> Result<(), AllocError>
    requires { begun ≤ length text.now }
    ensures { OnOk result (texts_of pieces.new.items ≡ texts_of pieces.old.items
        ++ last_piece (mode_of mode) (begun_at mode begun (length text.now) text.now)) }
{
    match mode {
        Mode::Between => Ok(()),
        _ => push_piece(pieces, text, begun, text.len()),
    }
}

/// Adds a part of the text, with the quote behind it.
fn push_quoted<'a>(
    pieces: &mut Vec<&'a [u8]>,
    text: &'a [u8],
    begun: usize,
    place: usize,
) -> Result<(), AllocError>
    requires order { begun ≤ place }
    requires within { place < length text.now }
    ensures { OnOk result (texts_of pieces.new.items
        ≡ texts_of pieces.old.items ++ (slice_range text.now begun place ++ get_or text.now place 0 ∷ []) ∷ []) }
{
    push_piece(pieces, text, begun, place + 1)?;
    Ok(())
}

/// Adds a part of the text.
fn push_piece<'a>(
    pieces: &mut Vec<&'a [u8]>,
    text: &'a [u8],
    from: usize,
    to: usize,
) -> Result<(), AllocError>
    requires order { from ≤ to }
    requires within { to ≤ length text.now }
    ensures { OnOk result (texts_of pieces.new.items ≡ texts_of pieces.old.items ++ slice_range text.now from to ∷ []) }
{
    pieces.push(&text[from..to])?;
    Ok(())
}

/// Adds the byte at a place where it is a bracket: a comma and a colon are none.
fn push_bracket<'a>(
    pieces: &mut Vec<&'a [u8]>,
    text: &'a [u8],
    place: usize,
) -> Result<(), AllocError>
    requires { place < length text.now }
    ensures { OnOk result (texts_of pieces.new.items ≡ texts_of pieces.old.items ++ bracket (get_or text.now place 0)) }
{
    if text[place] == b',' || text[place] == b':' {
        Ok(())
    } else {
        push_piece(pieces, text, place, place + 1)
    }
}
