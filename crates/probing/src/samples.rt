//! A member draws at most k of the candidates that fit, with three draws per candidate at most (memberlist's rules).
ghost use Rattle.std.specs.Prelude.{◌≡◌, ◌^◌, ◌<◌, ◌≤◌, IfOk, OnOk, length};
ghost use Rattle.streams.specs.Draw.{words_of};
ghost use Rattle.probing.specs.Samples.{is_in, with_drawn, sample_of};

use base::{MemberId, Memory};
use membership::Candidate;
use std::alloc::Global;
use streams::Stream;

/// Some of the candidates that fit, `k` at most, in the order in which they were drawn (memberlist's
/// rules). Each draw is of all candidates, and there are three at most for each: so fewer than `k`
/// may be taken though more fit. `Memory` where it was refused.
#[tactic(auto, unfolding(crate::specs::Samples::sample_of))]
pub fn sample(
    alloc: Global,
    candidates: &[Candidate],
    k: usize,
    stream: &mut Stream,
) -> Result<Vec<MemberId>, Memory>
    requires some { 0 < length candidates.now }
    requires few { length candidates.now ≤ 2 ^ 17 }
    ensures { IfOk result (λ taken. (taken.items, words_of stream.new)
        ≡ sample_of (words_of stream.old) k candidates.now) }
{
    let mut taken = Vec::new(alloc);
    let mut draws = 3 * candidates.len();
    while draws > 0 && taken.len() < k {
        let place = stream.below(candidates.len() as u32) as usize;
        take(&mut taken, &candidates[place])?;
        draws -= 1;
    }
    Ok(taken)
}

// Takes a candidate that was drawn, if it fits and wasn't taken before.
fn take(taken: &mut Vec<MemberId>, drawn: &Candidate) -> Result<(), Memory>
    ensures { OnOk result (taken.new.items ≡ with_drawn taken.old.items drawn.now) }
{
    if drawn.fits && !is_in(drawn.member, taken.as_slice()) {
        taken.push(drawn.member)?;
    }
    Ok(())
}

// Whether a member is among these.
fn is_in(member: MemberId, members: &[MemberId]) -> bool
    ensures { result ≡ is_in member members.now }
{
    members.iter().any(|other| *other == member)
}
