//! What a table holds of a member, in one byte.
ghost use Rattle.std.specs.Prelude.{◌≡◌, Some};
ghost use Rattle.membership.specs.Held.{claim_of};

use incarnation::Claim;

/// What is held of a member: a claim, or nothing. An `Option<Claim>` would take two bytes. The claims stand in the
/// order of `Claim`, so that the byte of one is the byte of the other, and a compiler drops both matches below.
#[derive(Clone, Copy, Debug, PartialEq, Eq)]
pub(crate) enum Held {
    Alive,
    Suspect,
    Confirm,
    Left,
    Intent,
    Nothing,
}

/// The claim that is held, if there is one.
#[inline(always)]
pub(crate) fn claim_of(held: Held) -> Option<Claim>
    ensures { result ≡ claim_of held }
{
    match held {
        Held::Alive => Some(Claim::Alive),
        Held::Suspect => Some(Claim::Suspect),
        Held::Confirm => Some(Claim::Confirm),
        Held::Left => Some(Claim::Left),
        Held::Intent => Some(Claim::Intent),
        Held::Nothing => None,
    }
}

/// What is held with a claim.
#[inline(always)]
pub(crate) fn held_of(claim: Claim) -> Held
    ensures { claim_of result ≡ Some claim }
{
    match claim {
        Claim::Alive => Held::Alive,
        Claim::Suspect => Held::Suspect,
        Claim::Confirm => Held::Confirm,
        Claim::Left => Held::Left,
        Claim::Intent => Held::Intent,
    }
}
