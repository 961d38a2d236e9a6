//! Which keys an entry has, and what rules 2 and 9 say of that.
ghost use Rattle.std.specs.Prelude.{◌≡◌, codes, is_some};
ghost use Rattle.toml.specs.Data.{get};
ghost use Rattle.toml.specs.View.{view};
ghost use Rattle.written_entries.specs.Keys.{has_key, keys_in, is_of_many, lacks_departure, lacks_key, lacks_spell, lacks_who, lacks_when, excludes, excludes_each, excludes_in_departure, excludes_in_who, excludes_in_when, excludes_times};

use toml::Value;

/// A list whose entries are about members, in the order in which the lists draw.
#[derive(Clone, Copy, Debug, PartialEq, Eq)]
pub enum ScriptList {
    Crash,
    Leave,
    Restart,
    Slow,
    Pause,
    Block,
}

/// Which keys an entry has.
#[derive(Clone, Copy, Debug)]
pub struct EntryKeys {
    pub member: bool,
    pub members: bool,
    pub group: bool,
    pub count: bool,
    pub at: bool,
    pub each: bool,
    pub back: bool,
    pub contact: bool,
    pub from: bool,
    pub until: bool,
    pub every: bool,
    pub lasts: bool,
    pub lasts_most: bool,
    pub extra: bool,
}

impl EntryKeys {
    /// The keys that an item of a list has.
    pub fn of(item: &Value) -> EntryKeys
        ensures { result ≡ keys_in (view item.now) }
    {
        EntryKeys {
            member: has(item, "member"),
            members: has(item, "members"),
            group: has(item, "group"),
            count: has(item, "count"),
            at: has(item, "at"),
            each: has(item, "each"),
            back: has(item, "back"),
            contact: has(item, "contact"),
            from: has(item, "from"),
            until: has(item, "until"),
            every: has(item, "every"),
            lasts: has(item, "lasts"),
            lasts_most: has(item, "lasts_most"),
            extra: has(item, "extra"),
        }
    }

    /// Rule 2: whether an entry of the list lacks a key that it needs.
    pub fn lack(&self, list: ScriptList) -> bool
        ensures { result ≡ lacks_key list self.now }
    {
        self.lack_who() || self.lack_when(list)
    }

    /// Whether it names nobody.
    fn lack_who(&self) -> bool
        ensures { result ≡ lacks_who self.now }
    {
        !self.member && !self.members && !self.group
    }

    /// Whether it has no time.
    fn lack_when(&self, list: ScriptList) -> bool
        ensures { result ≡ lacks_when list self.now }
    {
        match list {
            ScriptList::Crash | ScriptList::Leave => self.lack_departure(),
            ScriptList::Restart => !self.at,
            ScriptList::Slow => self.lack_spell() || !self.extra,
            ScriptList::Pause | ScriptList::Block => self.lack_spell(),
        }
    }

    /// Whether a crash or leave has no moment.
    fn lack_departure(&self) -> bool
        ensures { result ≡ lacks_departure self.now }
    {
        if self.every {
            !(self.from && self.until && self.back)
        } else {
            !self.at
        }
    }

    /// Whether a slow time, pause or block has no beginning, no end, or no length.
    fn lack_spell(&self) -> bool
        ensures { result ≡ lacks_spell self.now }
    {
        !(self.from && self.until) || (self.every && !self.lasts)
    }

    /// Rule 9: whether an entry of the list has keys that exclude each other.
    pub fn exclude(&self, list: ScriptList) -> bool
        ensures { result ≡ excludes list self.now }
    {
        self.exclude_in_who() || self.exclude_in_when(list)
    }

    /// Whether it names members in two ways, or counts without a group.
    fn exclude_in_who(&self) -> bool
        ensures { result ≡ excludes_in_who self.now }
    {
        self.is_of_many() || (self.count && !self.group)
    }

    /// Whether it has more than one of the three keys that name members.
    fn is_of_many(&self) -> bool
        ensures { result ≡ is_of_many self.now }
    {
        (self.member && self.members)
            || ((self.member && self.group) || (self.members && self.group))
    }

    /// Whether its times are given in two ways.
    fn exclude_in_when(&self, list: ScriptList) -> bool
        ensures { result ≡ excludes_in_when list self.now }
    {
        match list {
            ScriptList::Crash | ScriptList::Leave => self.exclude_in_departure(),
            ScriptList::Restart => self.each && self.member,
            ScriptList::Slow | ScriptList::Pause | ScriptList::Block => {
                !self.every && (self.lasts || self.lasts_most)
            }
        }
    }

    /// Whether a crash or leave has a moment and times, a distance that means nothing, or a contact without return.
    fn exclude_in_departure(&self) -> bool
        ensures { result ≡ excludes_in_departure self.now }
    {
        self.exclude_each() || (self.exclude_times() || (self.contact && !self.back))
    }

    /// Whether `each` stands beside `every`, or with one member.
    fn exclude_each(&self) -> bool
        ensures { result ≡ excludes_each self.now }
    {
        self.each && (self.every || self.member)
    }

    /// Whether a moment stands beside times, or the times have no `every`.
    fn exclude_times(&self) -> bool
        ensures { result ≡ excludes_times self.now }
    {
        if self.every {
            self.at
        } else {
            self.from || self.until
        }
    }
}

/// Whether a table has the key.
fn has(item: &Value, key: &str) -> bool
    ensures { result ≡ has_key key.now (view item.now) }
{
    item.get(key).is_some()
}
