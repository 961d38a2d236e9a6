//! Whether a member writes rows for an update and passes it on, or takes it over silently from a welcome.
ghost use Rattle.std.specs.Prelude.{◌≡◌};
ghost use Rattle.member.specs.Announce.{is_aloud};

/// How an update is applied: whether what it changes is written as rows and passed on.
#[derive(Clone, Copy, Debug, PartialEq, Eq)]
pub enum Announce {
    /// With rows about others, and the update goes on: heard in a message, or of one's own making.
    Aloud,
    /// Without either: an entry that a welcome brought.
    Quietly,
}

/// Whether what an update changes is written as rows and passed on.
pub(crate) fn is_aloud(telling: Announce) -> bool
    ensures { result ≡ is_aloud telling }
{
    telling == Announce::Aloud
}
