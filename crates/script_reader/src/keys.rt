//! The names of the six lists, and which keys an entry of each may have.
ghost use Rattle.std.specs.Prelude.{◌≡◌};
ghost use Rattle.script_reader.specs.Keys.{is_departure_key, is_key, is_restart_key, is_spell_key, is_who_key, list_name};

use written_entries::ScriptList;

/// The name of a list in a text.
pub(crate) fn list_name<'a>(list: ScriptList) -> &'a str
    ensures { result.now ≡ list_name list }
{
    match list {
        ScriptList::Crash => "crash",
        ScriptList::Leave => "leave",
        ScriptList::Restart => "restart",
        ScriptList::Slow => "slow",
        ScriptList::Pause => "pause",
        ScriptList::Block => "block",
    }
}

/// Whether an entry of the list may have the key.
pub(crate) fn is_key(list: ScriptList, key: &str) -> bool
    ensures { result ≡ is_key list key.now }
{
    match list {
        ScriptList::Crash | ScriptList::Leave => is_departure_key(key),
        ScriptList::Restart => is_restart_key(key),
        ScriptList::Slow => is_spell_key(key) || key == "extra",
        ScriptList::Pause | ScriptList::Block => is_spell_key(key),
    }
}

/// Whether a key says whom an entry is about, or is its name.
fn is_who_key(key: &str) -> bool
    ensures { result ≡ is_who_key key.now }
{
    key == "member" || (key == "members" || (key == "group" || (key == "count" || key == "name")))
}

/// Whether a restart may have the key.
fn is_restart_key(key: &str) -> bool
    ensures { result ≡ is_restart_key key.now }
{
    is_who_key(key) || (key == "at" || (key == "each" || key == "contact"))
}

/// Whether a crash or a leave may have the key.
fn is_departure_key(key: &str) -> bool
    ensures { result ≡ is_departure_key key.now }
{
    is_restart_key(key) || (key == "back" || (key == "from" || (key == "until" || key == "every")))
}

/// Whether a pause or a block may have the key.
fn is_spell_key(key: &str) -> bool
    ensures { result ≡ is_spell_key key.now }
{
    is_who_key(key)
        || (key == "from"
            || (key == "until" || (key == "every" || (key == "lasts" || key == "lasts_most"))))
}
