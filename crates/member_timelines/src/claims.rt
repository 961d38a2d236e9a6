//! How often members were wrongly confirmed to have failed.
ghost use Rattle.std.specs.Prelude.{◌≡◌, ℕ, ◌+◌, ◌<◌, ◌^◌, IfOk, cond, count_by, length, map, slice_index};
ghost use Rattle.scenario.specs.Setup.{member_count};
ghost use Rattle.reports.specs.Failures.{false_positives_of};
ghost use Rattle.reports.specs.Absences.{with_others_left, wrongs_of};
ghost use Rattle.member_timelines.specs.Run.{IsTold};
ghost use Rattle.member_timelines.specs.Wrongly.{is_claim_about, times_out, wrongly_by};

use crate::run::Run;
use base::Memory;
use reports::FalsePositive;
use scenario::Version;
use std::alloc::Global;
use trace::What;

/// How often each member was wrongly confirmed to have failed, as the report of the run counts.
pub fn times_out(alloc: Global, run: &Run) -> Result<Vec<u64>, Memory>
    requires { IsTold run.now }
    ensures all { IfOk result (λ counts. length counts.items ≡ member_count run.now.scenario.now) }
    ensures counted { IfOk result (λ counts. (m : ℕ) → m < member_count run.now.scenario.now
        → slice_index counts.items m ≡ times_out run.now.scenario.now run.now.tallies.now m) }
{
    times_out_by(alloc, run, run.scenario.version())
}

/// The same as the report of a version counts.
fn times_out_by(alloc: Global, run: &Run, version: Version) -> Result<Vec<u64>, Memory>
    requires { IsTold run.now }
    ensures all { IfOk result (λ counts. length counts.items ≡ member_count run.now.scenario.now) }
    ensures counted { IfOk result (λ counts. (m : ℕ) → m < member_count run.now.scenario.now
        → slice_index counts.items m ≡ count_by (is_claim_about m) (wrongly_by version run.now.tallies.now)) }
{
    match version {
        Version::One | Version::Two | Version::Three => times_tallied(alloc, run),
        Version::Four => times_accounted(alloc, run),
    }
}

/// The same before version 4.
fn times_tallied(alloc: Global, run: &Run) -> Result<Vec<u64>, Memory>
    requires { IsTold run.now }
    ensures all { IfOk result (λ counts. length counts.items ≡ member_count run.now.scenario.now) }
    ensures counted { IfOk result (λ counts. (m : ℕ) → m < member_count run.now.scenario.now
        → slice_index counts.items m ≡ count_by (is_claim_about m) (false_positives_of What.Confirm run.now.tallies.now)) }
{
    let claims = run.tallies.false_positives(What::Confirm);
    claims_by_member(alloc, claims, run.members())
}

/// The same in version 4, in which members start again.
fn times_accounted(alloc: Global, run: &Run) -> Result<Vec<u64>, Memory>
    requires { IsTold run.now }
    ensures all { IfOk result (λ counts. length counts.items ≡ member_count run.now.scenario.now) }
    ensures counted { IfOk result (λ counts. (m : ℕ) → m < member_count run.now.scenario.now
        → slice_index counts.items m ≡ count_by (is_claim_about m) (wrongs_of What.Confirm (map with_others_left run.now.tallies.now))) }
{
    let account = run.tallies.account(alloc, run.scenario)?;
    let claims = account.confirmed.as_slice();
    let counts = claims_by_member(alloc, claims, run.members())?;
    Ok(counts)
}

/// How many of these claims are about each of so many members.
fn claims_by_member(
    alloc: Global,
    claims: &[FalsePositive],
    members: usize,
) -> Result<Vec<u64>, Memory>
    ensures all { IfOk result (λ counts. length counts.items ≡ members) }
    ensures counted { IfOk result (λ counts. (m : ℕ) → m < members → slice_index counts.items m ≡ count_by (is_claim_about m) claims.now) }
{
    let mut counts = Vec::new(alloc);
    counts.resize(members, 0)?;
    for claim in claims {
        count(&mut counts, claim);
    }
    Ok(counts)
}

/// Counts a claim at the number of whom it is about.
fn count(counts: &mut [u64], claim: &FalsePositive)
    ensures all { length counts.new ≡ length counts.old }
    ensures counted { (m : ℕ) → m < length counts.old → slice_index counts.old m + 1 < 2 ^ 64
        → slice_index counts.new m ≡ slice_index counts.old m + cond (is_claim_about m claim.now) 1 0 }
{
    if let Some(about) = claim.about {
        let place = about.index();
        if place < counts.len() {
            counts[place] = counts[place].saturating_add(1);
        }
    }
}
