//! Lines behind the others, and the head of an entry.
ghost use Rattle.std.specs.Prelude.{◌≡◌, ◌++◌, ◌∷◌, [], map, OnOk};
ghost use Rattle.plain_text.specs.Document.{expression_of};
ghost use Rattle.plain_document.specs.Entries.{head_lines, name_at, name_line, whole_line};

use base::{MemberId, Memory};
use plain_text::{PlainLine, PlainValue};

/// A line behind the others.
pub(crate) fn add<'a>(lines: &mut Vec<PlainLine<'a>>, line: PlainLine<'a>) -> Result<(), Memory>
    ensures { OnOk result (map expression_of lines.new.items ≡ map expression_of lines.old.items ++ expression_of line.entry ∷ []) }
{
    lines.push(line)?;
    Ok(())
}

/// The header of an entry of a list, and its member.
pub(crate) fn add_head<'a>(
    lines: &mut Vec<PlainLine<'a>>,
    list: &'a str,
    names: &'a [String],
    member: MemberId,
) -> Result<(), Memory>
    ensures { OnOk result (map expression_of lines.new.items ≡ map expression_of lines.old.items ++ head_lines list.now names.now member) }
{
    add(lines, PlainLine::Item(list))?;
    add_name(lines, "member", name_at(names, member))
}

/// A key with a name.
pub(crate) fn add_name<'a>(
    lines: &mut Vec<PlainLine<'a>>,
    key: &'a str,
    name: &'a str,
) -> Result<(), Memory>
    ensures { OnOk result (map expression_of lines.new.items ≡ map expression_of lines.old.items ++ name_line key.now name.now ∷ []) }
{
    let value = PlainValue::Name(name);
    add(lines, PlainLine::Pair { key, value })
}

/// A key with a whole number.
pub(crate) fn add_whole<'a>(
    lines: &mut Vec<PlainLine<'a>>,
    key: &'a str,
    number: u64,
) -> Result<(), Memory>
    ensures { OnOk result (map expression_of lines.new.items ≡ map expression_of lines.old.items ++ whole_line key.now number ∷ []) }
{
    let value = PlainValue::Whole(number);
    add(lines, PlainLine::Pair { key, value })
}

/// A member's name; nothing where there is no such member.
pub(crate) fn name_at(names: &[String], member: MemberId) -> &str
    ensures { result.now ≡ name_at names.now member }
{
    match names.get(member.index()) {
        Some(name) => name.as_str(),
        None => "",
    }
}
