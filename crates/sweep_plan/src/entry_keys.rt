//! The keys of items of lists that only written texts have there.
ghost use Rattle.std.specs.Prelude.{◌≡◌};
ghost use Rattle.sweep_plan.specs.SetKeys.{entry_keys};

use crate::set_keys::SetKey;
use schema::FormatKey;

/// A key of the items of a list that they don't have in plain texts.
#[derive(Clone, Copy, Debug, PartialEq, Eq)]
pub struct EntryKey {
    /// The key of the list.
    pub list: FormatKey,
    /// That of its items.
    pub key: SetKey,
}

/// Such keys of all lists.
pub(crate) fn entry_keys() -> &'static [EntryKey]
    ensures { result.now ≡ entry_keys }
{
    &ENTRY_KEYS
}

const ENTRY_KEYS: [EntryKey; 28] = [
    EntryKey {
        list: FormatKey::Path,
        key: SetKey::Both,
    },
    EntryKey {
        list: FormatKey::Slow,
        key: SetKey::Plain(FormatKey::Count),
    },
    EntryKey {
        list: FormatKey::Slow,
        key: SetKey::Every,
    },
    EntryKey {
        list: FormatKey::Slow,
        key: SetKey::Lasts,
    },
    EntryKey {
        list: FormatKey::Slow,
        key: SetKey::LastsMost,
    },
    EntryKey {
        list: FormatKey::Crash,
        key: SetKey::Plain(FormatKey::Count),
    },
    EntryKey {
        list: FormatKey::Crash,
        key: SetKey::Plain(FormatKey::From),
    },
    EntryKey {
        list: FormatKey::Crash,
        key: SetKey::Plain(FormatKey::Until),
    },
    EntryKey {
        list: FormatKey::Crash,
        key: SetKey::Each,
    },
    EntryKey {
        list: FormatKey::Crash,
        key: SetKey::Back,
    },
    EntryKey {
        list: FormatKey::Crash,
        key: SetKey::Every,
    },
    EntryKey {
        list: FormatKey::Cut,
        key: SetKey::Both,
    },
    EntryKey {
        list: FormatKey::Leave,
        key: SetKey::Plain(FormatKey::Count),
    },
    EntryKey {
        list: FormatKey::Leave,
        key: SetKey::Plain(FormatKey::From),
    },
    EntryKey {
        list: FormatKey::Leave,
        key: SetKey::Plain(FormatKey::Until),
    },
    EntryKey {
        list: FormatKey::Leave,
        key: SetKey::Each,
    },
    EntryKey {
        list: FormatKey::Leave,
        key: SetKey::Back,
    },
    EntryKey {
        list: FormatKey::Leave,
        key: SetKey::Every,
    },
    EntryKey {
        list: FormatKey::Pause,
        key: SetKey::Plain(FormatKey::Count),
    },
    EntryKey {
        list: FormatKey::Pause,
        key: SetKey::Every,
    },
    EntryKey {
        list: FormatKey::Pause,
        key: SetKey::Lasts,
    },
    EntryKey {
        list: FormatKey::Pause,
        key: SetKey::LastsMost,
    },
    EntryKey {
        list: FormatKey::Restart,
        key: SetKey::Plain(FormatKey::Count),
    },
    EntryKey {
        list: FormatKey::Restart,
        key: SetKey::Each,
    },
    EntryKey {
        list: FormatKey::Block,
        key: SetKey::Plain(FormatKey::Count),
    },
    EntryKey {
        list: FormatKey::Block,
        key: SetKey::Every,
    },
    EntryKey {
        list: FormatKey::Block,
        key: SetKey::Lasts,
    },
    EntryKey {
        list: FormatKey::Block,
        key: SetKey::LastsMost,
    },
];
