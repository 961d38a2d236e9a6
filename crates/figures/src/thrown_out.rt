//! Members that were confirmed to have failed though they had not departed.
ghost use Rattle.std.specs.Prelude.{◌≡◌, ◌<◌, ◌||◌, ℕ, Bool, false, true, All, IfOk, IfSome, length, count_by, slice_index_or};
ghost use Rattle.std.specs.List.{list_any, range_with_len};
ghost use Rattle.scenario.specs.Setup.{member_count};
ghost use Rattle.figures.specs.Figures.{is_of, is_thrown_out};

use base::Memory;
use reports::FalsePositive;
use scenario::Scenario;
use std::alloc::Global;

/// How many members the false confirmations of a run are about. It takes a byte for each member.
pub(crate) fn thrown_out(
    alloc: Global,
    claims: &[FalsePositive],
    scenario: &Scenario,
) -> Result<usize, Memory>
    requires { All (λ claim. IfSome claim.about (λ member. member < member_count scenario.now)) claims.now }
    ensures { IfOk result (λ count. count ≡ count_by (is_thrown_out claims.now) (range_with_len 0 (member_count scenario.now))) }
{
    let mut are_out = vec![in alloc; false; scenario.members()]?;
    mark_each(&mut are_out, claims);
    Ok(count_marked(&are_out))
}

/// Marks the members of whom these claims are made.
fn mark_each(are_out: &mut [bool], claims: &[FalsePositive])
    requires { All (λ claim. IfSome claim.about (λ member. member < length are_out.old)) claims.now }
    ensures { (member : ℕ) → slice_index_or are_out.new member false
        ≡ (slice_index_or are_out.old member false || list_any (is_of member) claims.now) }
{
    for claim in claims {
        mark(are_out, claim);
    }
}

/// Marks the member of whom a claim is made.
fn mark(are_out: &mut [bool], claim: &FalsePositive)
    requires { IfSome claim.now.about (λ member. member < length are_out.old) }
    ensures { (member : ℕ) → slice_index_or are_out.new member false
        ≡ (slice_index_or are_out.old member false || is_of member claim.now) }
{
    if let Some(member) = claim.about {
        are_out[member.index()] = true;
    }
}

/// How many are marked.
fn count_marked(are_out: &[bool]) -> usize
    ensures { result ≡ count_by (λ is_out. is_out) are_out.now }
{
    are_out.iter().filter(|is_out| **is_out).count()
}
