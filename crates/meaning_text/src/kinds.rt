//! The entries of version 4 by their lists, and their words.
ghost use Rattle.std.specs.Prelude.{◌≡◌};
ghost use Rattle.meaning_text.specs.Summaries.{word_of, words_of};

/// What an entry of a text of version 4 stands for.
#[derive(Clone, Copy, Debug, PartialEq, Eq)]
pub enum EntryKind {
    Crash,
    Leave,
    Restart,
    /// The restarts of members that crash.
    CrashReturn,
    /// The restarts of members that leave.
    LeaveReturn,
    Slow,
    Pause,
    Block,
}

/// The word of an entry that stands for one plain entry.
#[tactic(auto, unfolding(crate::specs::Summaries::word_of))]
pub(crate) fn word_of(kind: EntryKind) -> &'static str
    ensures { result.now ≡ word_of kind }
{
    match kind {
        EntryKind::Crash => "crash",
        EntryKind::Leave => "leave",
        EntryKind::Restart => "restart",
        EntryKind::CrashReturn => "restart",
        EntryKind::LeaveReturn => "restart",
        EntryKind::Slow => "slow",
        EntryKind::Pause => "pause",
        EntryKind::Block => "block",
    }
}

/// The words of an entry that stands for several.
#[tactic(auto, unfolding(crate::specs::Summaries::words_of))]
pub(crate) fn words_of(kind: EntryKind) -> &'static str
    ensures { result.now ≡ words_of kind }
{
    match kind {
        EntryKind::Crash => "crash",
        EntryKind::Leave => "leave",
        EntryKind::Restart => "restart",
        EntryKind::CrashReturn => "restart of crash",
        EntryKind::LeaveReturn => "restart of leave",
        EntryKind::Slow => "slow",
        EntryKind::Pause => "pause",
        EntryKind::Block => "block",
    }
}
