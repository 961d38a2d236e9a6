//! The candidates from which a member draws some others, and the rule by which each may be taken: who is held alive, or
//! anybody but those who were declared dead some time ago (memberlist's rules).
ghost use Rattle.std.specs.Prelude.{◌≡◌, ◌^◌, ◌+◌, ◌<◌, ◌≤◌, ◌++◌, ℕ, List, map, length, nat_le, OnOk};
ghost use Rattle.membership.specs.Columns.{entries_from};
ghost use Rattle.membership.specs.Held.{claims_in};
ghost use Rattle.membership.specs.Deaths.{since_of};
ghost use Rattle.membership.specs.Candidates.{does_fit, known_candidate};

use crate::claims::{is_alive, is_confirm, is_left};
use crate::deaths::Deaths;
use crate::held::{Held, claim_of};
use base::{MemberId, Memory, Moment};
use incarnation::Claim;

/// A member that may be drawn where some are chosen, and whether it may be taken.
#[derive(Clone, Copy, Debug, PartialEq, Eq)]
pub struct Candidate {
    pub member: MemberId,
    pub fits: bool,
}

/// Who may be taken where some are chosen.
#[derive(Clone, Copy, Debug, PartialEq, Eq)]
pub enum Fitting {
    /// Who is held to be up, but this one.
    AliveBut(MemberId),
    /// Who isn't held to be down, or is so since at most `dead` ticks; with 0 nobody of these, and nobody who has left.
    Reachable { now: Moment, dead: u64 },
}

/// Whether a member that is held so may be taken.
pub(crate) fn does_fit(fitting: &Fitting, deaths: &Deaths, member: MemberId, claim: Claim) -> bool
    ensures { result ≡ does_fit fitting.now (since_of deaths.now) member claim }
{
    match fitting {
        Fitting::AliveBut(other) => is_alive(claim) && member != *other,
        Fitting::Reachable { now, dead } => {
            !is_confirm(claim)
                || (!is_left(claim) && *dead > 0 && is_lately(deaths.since(member), *now, *dead))
        }
    }
}

// Whether something happened at most so many ticks ago.
fn is_lately(since: Moment, now: Moment, ticks: u64) -> bool
    ensures { result ≡ nat_le now (since + ticks) }
{
    now.ticks().saturating_sub(since.ticks()) <= ticks
}

/// Appends those of whom something is held, the first of the claims being about the member of number
/// `first`.
pub(crate) fn append_known(
    them: &mut Vec<Candidate>,
    claims: &[Held],
    first: usize,
    fitting: &Fitting,
    deaths: &Deaths,
) -> Result<(), Memory>
    requires { first + length claims.now ≤ 2 ^ 16 }
    ensures { OnOk result ((incs : List ℕ) → them.new.items ≡ them.old.items
        ++ map (known_candidate (does_fit fitting.now (since_of deaths.now))) (entries_from first (claims_in claims.now) incs)) }
{
    for (place, held) in claims.iter().enumerate() {
        let Some(claim) = claim_of(*held) else {
            continue
        };
        let member = MemberId((first + place) as u16);
        let fits = does_fit(fitting, deaths, member, claim);
        them.push(Candidate { member, fits })?;
    }
    Ok(())
}
