//! The words of diagnostics of rules 6 and 7.
use crate::context::Context;
use crate::nearest::distance;
use crate::rows::version_of;
use crate::shown::shown_name;
use crate::words::Words;
use diagnostics::Known;
use schema::Version;
use std::alloc::{AllocError, Global};
use toml_places::Span;

/// How many groups are listed.
const MOST_GROUPS: usize = 8;

/// Rule 6: a group's name, or in version 4 an entry's, has another form.
pub(crate) fn group_name_words(context: &Context<'_>, span: Span) -> Result<Words, AllocError> {
    match version_of(context) {
        Version::One | Version::Two | Version::Three => narrow_name_words(context, span),
        Version::Four => wide_name_words(context, span),
    }
}

/// Rule 6: a name of version 4 has another form.
fn wide_name_words(context: &Context<'_>, span: Span) -> Result<Words, AllocError> {
    let alloc = context.alloc;
    let shown = context.shown_name(span)?;
    Words::of(
        format!(in alloc; "`{shown}` can't be a name here"),
        String::from_str(alloc, "write another name"),
        String::from_str(
            alloc,
            "a name has 1 to 32 letters, digits, `-` and `_`, a letter first and no `-` last",
        ),
    )
}

/// Rule 6: a group's name has another form than before version 4.
fn narrow_name_words(context: &Context<'_>, span: Span) -> Result<Words, AllocError> {
    let alloc = context.alloc;
    let name = context.name(span)?;
    let shown = context.shown_name(span)?;
    Words::of(
        format!(in alloc; "`{shown}` can't be the name of a group"),
        form_label(alloc, name.as_str()),
        String::from_str(
            alloc,
            "a group name has 1 to 16 letters a to z and digits 0 to 9, a letter first",
        ),
    )
}

/// What is wrong with the form of a name.
fn form_label(alloc: Global, name: &str) -> Result<String, AllocError> {
    match first_bad_char(name) {
        Some(bad) => bad_char_label(alloc, name, bad),
        None => length_label(alloc, name.len()),
    }
}

/// The first character of a name that is no small letter and no digit.
fn first_bad_char(name: &str) -> Option<char> {
    for c in name.chars() {
        if !c.is_ascii_lowercase() && !c.is_ascii_digit() {
            return Some(c);
        }
    }
    None
}

/// What is wrong with a name of so many letters and digits.
fn length_label(alloc: Global, bytes: usize) -> Result<String, AllocError> {
    if bytes == 0 {
        return String::from_str(alloc, "it has no letter");
    }
    if bytes > 16 {
        return format!(in alloc; "it has {bytes} letters and digits");
    }
    String::from_str(alloc, "it begins with a digit")
}

/// Which character of a name may not stand in it.
fn bad_char_label(alloc: Global, name: &str, bad: char) -> Result<String, AllocError> {
    if bad.is_ascii_uppercase() && name.len() <= 16 {
        let small = bad.to_ascii_lowercase();
        return format!(in alloc; "write `{small}` for `{bad}`");
    }
    unfit_char_label(alloc, bad)
}

/// That a character may not stand in a name.
fn unfit_char_label(alloc: Global, bad: char) -> Result<String, AllocError> {
    let mut piece = String::new(alloc);
    piece.push(bad)?;
    let shown = shown_name(alloc, piece.as_str())?;
    format!(in alloc; "`{shown}` may not stand in it")
}

/// Rule 6: two groups have one name.
pub(crate) fn repeated_words(
    context: &Context<'_>,
    span: Span,
    other: Span,
) -> Result<Words, AllocError> {
    let alloc = context.alloc;
    let shown = context.shown_name(span)?;
    let line = context.line(other);
    Words::of(
        format!(in alloc; "two groups have the name `{shown}`"),
        format!(in alloc; "the first of them is on line {line}"),
        String::from_str(alloc, "give one of them another name"),
    )
}

/// Rule 7: no group has the name.
pub(crate) fn group_words(context: &Context<'_>, span: Span) -> Result<Words, AllocError> {
    let alloc = context.alloc;
    let name = context.name(span)?;
    let shown = context.shown_name(span)?;
    Words::of(
        format!(in alloc; "no group has the name `{shown}`"),
        nearest_group_label(context, name.as_str()),
        groups_note(context),
    )
}

/// The nearest group, as a question.
fn nearest_group_label(context: &Context<'_>, name: &str) -> Result<String, AllocError> {
    let alloc = context.alloc;
    match nearest_group(context, name)? {
        Some(group) => question(alloc, group),
        None => String::from_str(alloc, "write the name of a group"),
    }
}

/// The first of the groups that are nearest to a name.
fn nearest_group<'a>(context: &Context<'a>, name: &str) -> Result<Option<&'a str>, AllocError> {
    let mut nearest = None;
    let mut least = usize::MAX;
    for group in context.diagnostics.groups.keys() {
        if let Some(edits) = distance(context.alloc, name, group.as_str())?
            && edits < least
        {
            least = edits;
            nearest = Some(group.as_str());
        }
    }
    Ok(nearest)
}

/// Whether a name was meant.
fn question(alloc: Global, name: &str) -> Result<String, AllocError> {
    let shown = shown_name(alloc, name)?;
    format!(in alloc; "did you mean `{shown}`?")
}

/// Which groups there are.
fn groups_note(context: &Context<'_>) -> Result<String, AllocError> {
    let alloc = context.alloc;
    let list = groups_list(context)?;
    format!(in alloc; "the groups are: {list}")
}

/// The first groups, and whether there are more.
fn groups_list(context: &Context<'_>) -> Result<String, AllocError> {
    let mut list = String::new(context.alloc);
    let mut listed = 0usize;
    for group in context.diagnostics.groups.keys() {
        if listed > MOST_GROUPS {
            return Ok(list);
        }
        push_group(context.alloc, &mut list, listed, group.as_str())?;
        listed += 1;
    }
    Ok(list)
}

/// Adds a group behind so many, or that there are more.
fn push_group(
    alloc: Global,
    list: &mut String,
    listed: usize,
    group: &str,
) -> Result<(), AllocError> {
    if listed == MOST_GROUPS {
        return list.push_str(", ...");
    }
    let parting = parting(listed);
    let shown = shown_name(alloc, group)?;
    write!(list, "{parting}{shown}")
}

/// What stands before a group, behind so many.
fn parting(listed: usize) -> &'static str {
    if listed > 0 { ", " } else { "" }
}

/// Rule 7: no member has the name.
pub(crate) fn member_words(context: &Context<'_>, span: Span) -> Result<Words, AllocError> {
    let alloc = context.alloc;
    let name = context.name(span)?;
    let shown = context.shown_name(span)?;
    Words::of(
        format!(in alloc; "no member has the name `{shown}`"),
        member_label(context, name.as_str()),
        groups_note(context),
    )
}

/// The members of a name's group, or the nearest member.
fn member_label(context: &Context<'_>, name: &str) -> Result<String, AllocError> {
    let group = group_part(name);
    match context.diagnostics.groups.get(group).copied() {
        Some(known) => range_label(context.alloc, group, known),
        None => nearest_member_label(context, name),
    }
}

/// The group of which a name would be a member's.
fn group_part(name: &str) -> &str {
    match name.rsplit_once('-') {
        Some((group, _)) => group,
        None => name,
    }
}

/// The number that a member of this name would have.
fn index_part(name: &str) -> &str {
    match name.rsplit_once('-') {
        Some((_, index)) => index,
        None => "0",
    }
}

/// Which members a group has.
fn range_label(alloc: Global, group: &str, known: Known) -> Result<String, AllocError> {
    let group = shown_name(alloc, group)?;
    let group = group.as_str();
    let count = count_of(known);
    if count == 0 {
        return format!(in alloc; "write {group}- and a number, as {group}-0");
    }
    let last = count.saturating_sub(1);
    format!(in alloc; "the members of `{group}` are {group}-0 to {group}-{last}")
}

/// How many members a group has, as far as that is known.
fn count_of(known: Known) -> u64 {
    match known.count {
        Some(count) => count,
        None => 0,
    }
}

/// The nearest member, as a question.
fn nearest_member_label(context: &Context<'_>, name: &str) -> Result<String, AllocError> {
    let alloc = context.alloc;
    let index = index_part(name);
    match nearest_member(context, name, index)? {
        Some(group) => {
            let member = member_name(alloc, group, index)?;
            question(alloc, member.as_str())
        }
        None => String::from_str(alloc, "write a group's name, - and a number"),
    }
}

/// The first of the groups whose members of this number are nearest to a name.
fn nearest_member<'a>(
    context: &Context<'a>,
    name: &str,
    index: &str,
) -> Result<Option<&'a str>, AllocError> {
    let mut nearest = None;
    let mut least = usize::MAX;
    for (group, known) in context.diagnostics.groups.iter() {
        if let Some(edits) = member_distance(context.alloc, name, group.as_str(), *known, index)?
            && edits < least
        {
            least = edits;
            nearest = Some(group.as_str());
        }
    }
    Ok(nearest)
}

/// How many edits lead from a name to a member's; none where those are too many or there is no such member.
fn member_distance(
    alloc: Global,
    name: &str,
    group: &str,
    known: Known,
    index: &str,
) -> Result<Option<usize>, AllocError> {
    if !has_index(known, index) {
        return Ok(None);
    }
    let member = member_name(alloc, group, index)?;
    distance(alloc, name, member.as_str())
}

/// The name of a member.
fn member_name(alloc: Global, group: &str, index: &str) -> Result<String, AllocError> {
    format!(in alloc; "{group}-{index}")
}

/// Whether a group has a member of this number.
fn has_index(known: Known, index: &str) -> bool {
    match (index.parse::<u64>(), known.count) {
        (Ok(index), Some(count)) => index < count,
        _ => false,
    }
}
