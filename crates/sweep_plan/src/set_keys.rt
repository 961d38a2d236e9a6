//! The keys that a sweep sets, as a text spells them.
ghost use Rattle.std.specs.Prelude.{◌≡◌};
ghost use Rattle.sweep_plan.specs.SetKeys.{key_spelling};

use schema::FormatKey;

/// A key that a sweep sets.
#[derive(Clone, Copy, Debug, PartialEq, Eq)]
pub enum SetKey {
    /// A key of plain texts.
    Plain(FormatKey),
    /// How much later each further member of an entry crashes, leaves or starts again.
    Each,
    /// How much later a process that crashed or left starts again.
    Back,
    /// How often an entry comes again.
    Every,
    /// How long a time of an entry that comes again lasts.
    Lasts,
    /// The most that it lasts.
    LastsMost,
    /// Whether a path or a cut is one of both directions.
    Both,
}

impl SetKey {
    /// How the text spells the key.
    pub fn text(self) -> &'static str
        ensures { result.now ≡ key_spelling self }
    {
        match self {
            SetKey::Plain(key) => key.text(),
            SetKey::Each => "each",
            SetKey::Back => "back",
            SetKey::Every => "every",
            SetKey::Lasts => "lasts",
            SetKey::LastsMost => "lasts_most",
            SetKey::Both => "both",
        }
    }
}
