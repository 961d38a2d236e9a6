//! The confirmations of a suspicion (Lifeguard's LHA-Suspicion): up to nine further accusers, kept in place.
ghost use Rattle.std.specs.Prelude.{◌≡◌, ◌==◌, ◌<◌, ◌≤◌, [], ◌∷◌, ◌++◌, length};
ghost use Rattle.std.specs.List.{list_any};

use base::MemberId;
use std::marker::Model;

/// The accusers of a suspect after the first one, in the order in which they came: nine at most, so
/// that they are kept in place and take no memory.
#[derive(Drop)]
pub(crate) struct Accusers {
    members: [MemberId; 9],
    count: usize,
}

impl Model for Accusers {
    ghost use Rattle.std.specs.Prelude.{◌≡◌, ℕ, List, take, length, ◌≤◌};

    ghost Value = { List ℕ };

    ghost view = { λ further. take further.count further.members };

    ghost invariant = { λ further. (further.count ≤ 9) × (length further.members ≡ 9) };
}

impl Accusers {
    pub(crate) fn new() -> Self
        ensures { result ≡ [] }
    {
        Accusers {
            members: [MemberId(0); 9],
            count: 0,
        }
    }

    pub(crate) fn len(&self) -> usize
        ensures { result ≡ length self.now }
    {
        self.count
    }

    pub(crate) fn contains(&self, member: MemberId) -> bool
        ensures { result ≡ list_any (λ x. x == member) self.now }
    {
        self.members[..self.count].iter().any(|m| *m == member)
    }

    pub(crate) fn push(&mut self, member: MemberId)
        requires { length self.old < 9 }
        ensures { self.new ≡ self.old ++ member ∷ [] }
    {
        self.members[self.count] = member;
        self.count += 1;
    }
}
