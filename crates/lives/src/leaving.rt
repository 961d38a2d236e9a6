//! How far the leave of a member is.
ghost use Rattle.std.specs.Prelude.{◌≡◌};
ghost use Rattle.lives.specs.Lives.{has_said, does_stay, does_intend, does_say};

/// How far a leave is.
#[derive(Clone, Copy, Debug, PartialEq, Eq)]
pub enum Leaving {
    /// The member doesn't leave.
    Stays,
    /// It tells others that it is about to leave (Serf).
    Intends,
    /// It tells others that it has left.
    Says,
    /// It has told them, and goes on for a while.
    Lingers,
}

impl Leaving {
    /// Whether the member doesn't leave.
    pub fn stays(self) -> bool
        ensures { result ≡ does_stay self }
    {
        self == Leaving::Stays
    }

    /// Whether it tells others that it is about to leave.
    pub fn intends(self) -> bool
        ensures { result ≡ does_intend self }
    {
        self == Leaving::Intends
    }

    /// Whether it tells others that it has left.
    pub fn says(self) -> bool
        ensures { result ≡ does_say self }
    {
        self == Leaving::Says
    }

    /// Whether it tells others that it has left, or has told them.
    pub fn has_said(self) -> bool
        ensures { result ≡ has_said self }
    {
        match self {
            Leaving::Stays | Leaving::Intends => false,
            Leaving::Says | Leaving::Lingers => true,
        }
    }
}
