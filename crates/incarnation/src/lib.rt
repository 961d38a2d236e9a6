//! Claims about members, and which claim overrides which by its incarnation number (SWIM, section 4.2).
#![tactic(auto)]

ghost use Rattle.std.specs.Prelude.{ℕ, ◌≡◌, ◌≢◌, ◌+◌, ◌<◌, ◌↔◌, ◌⊎◌, IsTrue, true};
ghost use Rattle.base.specs.declared.profile.Profile.{Profile as AnyProfile};
ghost use Rattle.incarnation.specs.declared.Claim.{Claim as AnyClaim};
ghost use Rattle.incarnation.specs.Overrides.{Overrides, OverridesForGood, OverridesUntilRefuted, is_up};
ghost use Rattle.incarnation.specs.Refutations.{does_refute};

use base::{MemberId, Profile};

/// What is claimed of a member.
#[derive(Clone, Copy, Debug, PartialEq, Eq, Hash)]
pub enum Claim {
    /// It is up.
    Alive,
    /// It didn't answer a probe, and may be down.
    Suspect,
    /// It is down: for good, or by memberlist's rules until it refutes that.
    Confirm,
    /// It has left, by its own word: down until it is up again (memberlist 0.5.0's rules).
    Left,
    /// It is about to leave (Serf's word). No member holds that of another: it only passes it on.
    Intent,
}

/// A claim as it travels: of whom, with which incarnation number, and who made it.
#[derive(Clone, Copy, Debug, PartialEq, Eq, Hash)]
pub struct Update {
    /// The incarnation number of the subject that the claim speaks of. It comes first, so that an update takes 16 bytes.
    pub inc: u64,
    pub subject: MemberId,
    pub accuser: MemberId,
    pub claim: Claim,
}

/// Whether the claim `new` takes the place of the claim `old` about the same member, each with its
/// incarnation number (SWIM, section 4.2), by the rules of a profile.
pub fn overrides(profile: Profile, new: (Claim, u64), old: (Claim, u64)) -> bool
    ensures { IsTrue result ↔ Overrides profile new old }
{
    match profile {
        Profile::Papers => overrides_for_good(new, old),
        Profile::Memberlist | Profile::Hashicorp => overrides_until_refuted(new, old),
    }
}

// By the papers' rules.
fn overrides_for_good(new: (Claim, u64), old: (Claim, u64)) -> bool
    ensures { IsTrue result ↔ OverridesForGood new old }
{
    match (new.0, old.0) {
        (Claim::Intent, _) | (_, Claim::Intent | Claim::Confirm | Claim::Left) => false,
        (Claim::Confirm | Claim::Left, _) => true,
        (Claim::Suspect, Claim::Alive) => new.1 >= old.1,
        _ => new.1 > old.1,
    }
}

// By memberlist's.
fn overrides_until_refuted(new: (Claim, u64), old: (Claim, u64)) -> bool
    ensures { IsTrue result ↔ OverridesUntilRefuted new old }
{
    match (new.0, old.0) {
        (Claim::Intent, _) | (_, Claim::Intent) => false,
        (Claim::Alive, _) => new.1 > old.1,
        (_, Claim::Alive) | (Claim::Confirm | Claim::Left, Claim::Suspect) => new.1 >= old.1,
        _ => false,
    }
}

/// Whether a member whose own number is `own` refutes this claim about itself, by the number after
/// the claim's (SWIM, section 4.2).
pub fn refutes(profile: Profile, own: u64, claim: Claim, inc: u64) -> bool
    ensures { result ≡ does_refute profile own claim inc }
{
    match (profile, claim) {
        (_, Claim::Intent) => false,
        (Profile::Papers, Claim::Suspect) => inc == own,
        (Profile::Papers, _) => false,
        (Profile::Memberlist, Claim::Alive) => false,
        (Profile::Hashicorp, Claim::Alive) => inc > own,
        (Profile::Memberlist | Profile::Hashicorp, _) => inc >= own,
    }
}

/// No claim overrides itself, nor one that overrides it.
pub fn overriding_goes_one_way()
    ensures irreflexive { (profile : AnyProfile) (claim : AnyClaim × ℕ) → ¬ Overrides profile claim claim }
    ensures asymmetric { (profile : AnyProfile) (a b : AnyClaim × ℕ) → Overrides profile a b → ¬ Overrides profile b a }
{}

/// By the papers' rules a claim that overrides another overrides whatever that one overrides. (By
/// memberlist's no suspicion overrides an older one.)
pub fn overriding_is_transitive()
    ensures { (a b c : AnyClaim × ℕ) → OverridesForGood a b → OverridesForGood b c → OverridesForGood a c }
{}

/// By the papers' rules, of two claims that differ, each of them Alive or Suspect, one overrides the other.
pub fn overriding_is_total_below_confirm()
    ensures { (a b : AnyClaim × ℕ) → a ≢ b → is_up a.0 ≡ true → is_up b.0 ≡ true
        → OverridesForGood a b ⊎ OverridesForGood b a }
{}

/// By the papers' rules nothing overrides Confirm, whatever the numbers.
pub fn nothing_overrides_confirm()
    ensures { (claim : AnyClaim × ℕ) (inc : ℕ) → ¬ OverridesForGood claim (Claim.Confirm, inc) }
{}

/// By memberlist's rules Alive overrides Confirm, at a higher number alone.
pub fn alive_alone_overrides_a_death()
    ensures { (claim : AnyClaim × ℕ) (inc : ℕ) → (OverridesUntilRefuted claim (Claim.Confirm, inc)
        ↔ ((claim.0 ≡ Claim.Alive) × (inc < claim.1))) }
{}

/// The number of a refutation is over one's own and over the claim's, and the refutation overrides the
/// claim.
pub fn refutations_override()
    ensures higher { (profile : AnyProfile) (own : ℕ) (claim : AnyClaim) (inc : ℕ)
        → does_refute profile own claim inc ≡ true → own < inc + 1 }
    ensures overrides { (profile : AnyProfile) (own : ℕ) (claim : AnyClaim) (inc : ℕ)
        → does_refute profile own claim inc ≡ true → Overrides profile (Claim.Alive, inc + 1) (claim, inc) }
{}

#[cfg(test)]
mod tests {
    use super::*;

    #[test]
    fn overrides_by_the_table(rt: HostRuntime) {
        let rows = [
            ((Claim::Suspect, 3), (Claim::Alive, 3), true),
            ((Claim::Alive, 3), (Claim::Suspect, 3), false),
            ((Claim::Alive, 4), (Claim::Suspect, 3), true),
            ((Claim::Confirm, 0), (Claim::Alive, 9), true),
            ((Claim::Alive, 9), (Claim::Confirm, 0), false),
            ((Claim::Confirm, 0), (Claim::Confirm, 0), false),
        ];
        for (new, old, expected) in rows {
            assert_eq!(rt;
                overrides(Profile::Papers, new, old),
                expected,
                "{new:?} on {old:?}"
            );
        }
    }

    #[test]
    fn memberlist_lets_a_death_be_refuted(rt: HostRuntime) {
        let rows = [
            ((Claim::Alive, 1), (Claim::Confirm, 0), true),
            ((Claim::Alive, 0), (Claim::Confirm, 0), false),
            ((Claim::Confirm, 0), (Claim::Alive, 1), false),
            ((Claim::Confirm, 1), (Claim::Suspect, 1), true),
            ((Claim::Suspect, 2), (Claim::Suspect, 1), false),
            ((Claim::Suspect, 1), (Claim::Alive, 1), true),
        ];
        for (new, old, expected) in rows {
            assert_eq!(rt;
                overrides(Profile::Memberlist, new, old),
                expected,
                "{new:?} on {old:?}"
            );
        }
    }
}
