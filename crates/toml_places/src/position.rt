//! Lines and columns.
ghost use Rattle.std.specs.Prelude.{◌≡◌, ◌≤◌, ◌<◌, ◌+◌, take};
ghost use Rattle.toml_places.specs.Places.{next_line, next_column, line_from, column_from};

/// A place in a text as people count it, both from 1: lines end by line feeds, and a column counts
/// the characters before it on its line.
#[derive(Clone, Copy, Debug, PartialEq, Eq)]
pub struct Position {
    pub line: usize,
    pub column: usize,
}

/// The position of a byte of a text; past its end, that of the end.
pub fn position_of(text: &[u8], byte: usize) -> Position
    ensures line { result.line ≡ line_from 1 (take byte text.now) }
    ensures column { result.column ≡ column_from 1 (take byte text.now) }
{
    position_after(&text[..byte.min(text.len())])
}

/// The position after the bytes from which a text begins.
#[tactic(auto, using(crate::proofs::Lines::line_step, crate::proofs::Lines::column_step))]
fn position_after(before: &[u8]) -> Position
    ensures line { result.line ≡ line_from 1 before.now }
    ensures column { result.column ≡ column_from 1 before.now }
{
    let mut line = 1usize;
    let mut column = 1usize;
    for i in 0..before.len() {
        line = next_line(line, before[i]);
        column = next_column(column, before[i]);
    }
    Position { line, column }
}

/// The line after a byte.
fn next_line(line: usize, byte: u8) -> usize
    requires { line < usize.MAX }
    ensures { result ≡ next_line line byte }
{
    if byte == b'\n' { line + 1 } else { line }
}

/// The column after a byte.
fn next_column(column: usize, byte: u8) -> usize
    requires { column < usize.MAX }
    ensures { result ≡ next_column column byte }
{
    if byte == b'\n' {
        1
    } else if 128 <= byte && byte < 192 {
        column
    } else {
        column + 1
    }
}
