//! Whom the items of a list name, and how they are called themselves.
ghost use Rattle.std.specs.Prelude.{◌≡◌, map, option_map};
ghost use Rattle.std.specs.List.{list_any};
ghost use Rattle.toml.specs.Data.{as_str};
ghost use Rattle.toml.specs.View.{view};
ghost use Rattle.script_reader.specs.Values.{members_of};
ghost use Rattle.script_reader.specs.Rules.{has_bad_name, is_no_group, is_nobody, names_nobody};

use crate::values::{members_of, text_at, text_in};
use toml::Value;
use written_names::{Roster, is_written_name};

/// Whether an item names a member or a group that isn't there.
pub(crate) fn names_nobody(roster: &Roster, item: &Value) -> bool
    ensures { result ≡ names_nobody roster.now (view item.now) }
{
    is_nobody(roster, text_at(item, "member"))
        || (is_nobody(roster, text_at(item, "contact"))
            || (is_no_group(roster, text_at(item, "group")) || has_nobody(roster, item)))
}

/// Whether a name is no member's.
fn is_nobody(roster: &Roster, name: Option<&str>) -> bool
    ensures { result ≡ is_nobody roster.now (option_map (λ t. t.now) name.entry) }
{
    match name {
        Some(name) => match roster.find(name) {
            Some(_) => false,
            None => true,
        },
        None => false,
    }
}

/// Whether a name is no group's.
fn is_no_group(roster: &Roster, name: Option<&str>) -> bool
    ensures { result ≡ is_no_group roster.now (option_map (λ t. t.now) name.entry) }
{
    match name {
        Some(name) => roster.group(name).is_none(),
        None => false,
    }
}

/// Whether one of `members` is nobody.
fn has_nobody(roster: &Roster, item: &Value) -> bool
    ensures { result ≡ list_any (λ d. is_nobody roster.now (as_str d)) (members_of (view item.now)) }
{
    has_nobody_among(roster, members_of(item))
}

/// Whether one of these is nobody.
fn has_nobody_among(roster: &Roster, values: &[Value]) -> bool
    ensures { result ≡ list_any (λ v. is_nobody roster.now (as_str (view v))) values.now }
{
    values.iter().any(|value| is_nobody(roster, text_in(value)))
}

/// Whether an item has a name of another form.
pub(crate) fn has_bad_name(item: &Value) -> bool
    ensures { result ≡ has_bad_name (view item.now) }
{
    match text_at(item, "name") {
        Some(name) => !is_written_name(name.as_bytes()),
        None => false,
    }
}
