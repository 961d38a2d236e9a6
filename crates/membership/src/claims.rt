//! What a claim says of a member (alive, suspect or confirm), and which of two claims overrides the other (SWIM,
//! section 4.2).
ghost use Rattle.std.specs.Prelude.{◌≡◌};
ghost use Rattle.membership.specs.Table.{is_alive, is_suspect, is_confirm, is_left, is_intent, does_override};

use base::Profile;
use incarnation::{Claim, overrides};

/// Whether a member is held to be up.
pub(crate) fn is_alive(claim: Claim) -> bool
    ensures { result ≡ is_alive claim }
{
    match claim {
        Claim::Alive => true,
        Claim::Suspect | Claim::Confirm | Claim::Left | Claim::Intent => false,
    }
}

/// Whether a member is suspected.
pub fn is_suspect(claim: Claim) -> bool
    ensures { result ≡ is_suspect claim }
{
    match claim {
        Claim::Suspect => true,
        Claim::Alive | Claim::Confirm | Claim::Left | Claim::Intent => false,
    }
}

/// Whether a member is held to be down: confirmed, or gone by its own word.
pub fn is_confirm(claim: Claim) -> bool
    ensures { result ≡ is_confirm claim }
{
    match claim {
        Claim::Confirm | Claim::Left => true,
        Claim::Alive | Claim::Suspect | Claim::Intent => false,
    }
}

/// Whether a member is held to have left.
pub fn is_left(claim: Claim) -> bool
    ensures { result ≡ is_left claim }
{
    match claim {
        Claim::Left => true,
        Claim::Alive | Claim::Suspect | Claim::Confirm | Claim::Intent => false,
    }
}

/// Whether it is no claim, but says that a member is about to leave.
pub fn is_intent(claim: Claim) -> bool
    ensures { result ≡ is_intent claim }
{
    match claim {
        Claim::Intent => true,
        Claim::Alive | Claim::Suspect | Claim::Confirm | Claim::Left => false,
    }
}

/// Whether the first claim takes the place of the second (SWIM, section 4.2), by the rules of a
/// profile.
pub fn does_override(profile: Profile, new: (Claim, u64), old: (Claim, u64)) -> bool
    ensures { result ≡ does_override profile new old }
{
    overrides(profile, new, old)
}
