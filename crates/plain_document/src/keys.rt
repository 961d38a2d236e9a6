//! Which keys count ticks, and which are shares.
ghost use Rattle.std.specs.Prelude.{◌≡◌};
ghost use Rattle.plain_document.specs.Keys.{counts_in_addition, counts_ticks, is_gone, kind_of, read_key, turned_key};

/// What a key's value is beside a whole number, a switch or a name.
#[derive(Clone, Copy)]
pub enum KeyKind {
    /// A length.
    Ticks,
    /// A share.
    Share,
    /// Nothing else.
    Plain,
    /// Gone: the plain text hasn't the key.
    Gone,
}

/// Which way a path or cut is written.
#[derive(Clone, Copy)]
pub enum Way {
    /// As it stands.
    Straight,
    /// With its ends exchanged.
    Turned,
}

/// The kind of a key of a table, or of the top, whose section is empty.
pub fn kind_of(section: &str, key: &str) -> KeyKind
    ensures { result ≡ kind_of section.now key.now }
{
    if is_gone(section, key) {
        KeyKind::Gone
    } else if key == "loss" {
        KeyKind::Share
    } else if counts_ticks(section, key) {
        KeyKind::Ticks
    } else {
        KeyKind::Plain
    }
}

/// Whether the plain text hasn't the key: `tick` at the top, `both` of paths and cuts.
fn is_gone(section: &str, key: &str) -> bool
    ensures { result ≡ is_gone section.now key.now }
{
    (section == "" && key == "tick") || ((section == "path" || section == "cut") && key == "both")
}

/// The key whose value stands at a key.
pub(crate) fn read_key<'a>(way: Way, key: &'a str) -> &'a str
    ensures { result.now ≡ read_key way key.now }
{
    match way {
        Way::Straight => key,
        Way::Turned => turned_key(key),
    }
}

/// The other end; another key itself.
fn turned_key<'a>(key: &'a str) -> &'a str
    ensures { result.now ≡ turned_key key.now }
{
    if key == "from" {
        "to"
    } else if key == "to" {
        "from"
    } else {
        key
    }
}

/// Whether a key counts ticks.
fn counts_ticks(section: &str, key: &str) -> bool
    ensures { result ≡ counts_ticks section.now key.now }
{
    if section == "" {
        key == "end"
    } else if section == "swim" {
        key == "period" || (key == "timeout" || key == "spread")
    } else if section == "link" || section == "path" {
        key == "delay" || key == "jitter"
    } else if section == "group" {
        key == "start"
    } else if section == "cut" {
        key == "at" || key == "until"
    } else {
        counts_in_addition(section, key)
    }
}

/// Whether a key of a section that version 3 or 4 adds counts ticks.
fn counts_in_addition(section: &str, key: &str) -> bool
    ensures { result ≡ counts_in_addition section.now key.now }
{
    if section == "gossip" {
        key == "interval" || (key == "dead" || key == "push")
    } else if section == "stream" {
        key == "connect" || (key == "again" || (key == "limit" || key == "retry"))
    } else if section == "serf" {
        key == "reconnect" || (key == "reap" || key == "linger")
    } else {
        false
    }
}
