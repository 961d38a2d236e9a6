//! The marks of the settings that no other beats.
ghost use Rattle.std.specs.Prelude.{◌≡◌, ◌++◌, List, OnOk, codes, string_bytes, ℕ};
ghost use Rattle.goals.specs.Front.{mark_text, mark_word};

use std::alloc::AllocError;

/// Adds the header of the lines of settings to a text, with the word over the marks as its last cell.
pub fn push_header(text: &mut String, line: &str) -> Result<(), AllocError>
    ensures { OnOk result ((cells : List ℕ) → line.now ≡ cells ++ codes "\n" → string_bytes text.new ≡ string_bytes text.old ++ (cells ++ mark_word)) }
{
    push_cells(text, line)?;
    text.push_str("  front\n")
}

/// Adds the line of a setting to a text, with its mark as the last cell: `*` where it is on the front, else `-`.
pub fn push_marked(text: &mut String, line: &str, is_on_front: bool) -> Result<(), AllocError>
    ensures { OnOk result ((cells : List ℕ) → line.now ≡ cells ++ codes "\n" → string_bytes text.new ≡ string_bytes text.old ++ (cells ++ mark_text is_on_front)) }
{
    push_cells(text, line)?;
    push_mark(text, is_on_front)
}

/// Adds a mark, with a line feed.
fn push_mark(text: &mut String, is_on_front: bool) -> Result<(), AllocError>
    ensures { OnOk result (string_bytes text.new ≡ string_bytes text.old ++ mark_text is_on_front) }
{
    if is_on_front {
        return text.push_str("      *\n");
    }
    text.push_str("      -\n")
}

/// Adds a line without its line feed.
fn push_cells(text: &mut String, line: &str) -> Result<(), AllocError>
    ensures { OnOk result ((cells : List ℕ) → line.now ≡ cells ++ codes "\n" → string_bytes text.new ≡ string_bytes text.old ++ cells) }
{
    match line.strip_suffix('\n') {
        Some(cells) => text.push_str(cells),
        None => text.push_str(line),
    }
}
