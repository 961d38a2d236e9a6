//! Many parts put together into few.
ghost use Rattle.std.specs.Prelude.{◌≡◌, ◌<◌, ◌≤◌, ℕ, IfOk, All, EachIndex, length, slice_index, slice_index_or, vec_len};
ghost use Rattle.scenario.specs.Setup.{member_count};
ghost use Rattle.partitioning.specs.Parts.{Divides, IsEven, IsFolded, members_at};

use crate::divisions::divided;
use base::{MemberId, Memory};
use scenario::{Division, Scenario};
use std::alloc::Global;

/// The parts of the division put together into so many of like size, each of them whole: the next
/// one always goes to where the fewest members are.
pub(crate) fn folded(
    alloc: Global,
    scenario: &Scenario,
    division: &Division,
    most: usize,
) -> Result<Division, Memory>
    requires divides { length division.now.part_of ≡ member_count scenario.now }
    requires few { (1 ≤ most) × (most ≤ 64) }
    ensures divides { IfOk result (Divides scenario.now most) }
    ensures folded { IfOk result (IsFolded division.now most) }
{
    let places = places_of(alloc, scenario, division, most)?;
    let mut part_of = Vec::new(alloc);
    for member in 0..scenario.members() {
        let part = division.part(MemberId(member as u16));
        part_of.push(places[part])?;
    }
    Ok(divided(scenario, most, part_of))
}

/// How many members each part has.
fn sizes_of(alloc: Global, scenario: &Scenario, division: &Division) -> Result<Vec<usize>, Memory>
    requires divides { length division.now.part_of ≡ member_count scenario.now }
    ensures each { IfOk result (λ sizes. vec_len sizes ≡ division.now.parts) }
    ensures counted { IfOk result (λ sizes. EachIndex sizes.items (λ part. slice_index sizes.items part ≡ members_at division.now (λ p. p) part)) }
    ensures few { IfOk result (λ sizes. vec_len sizes ≤ 64) }
    ensures bounded { IfOk result (λ sizes. All (λ size. size ≤ 16384) sizes.items) }
{
    let mut sizes = vec![in alloc; 0; division.parts()]?;
    for member in 0..scenario.members() {
        let part = division.part(MemberId(member as u16));
        sizes[part] += 1;
    }
    Ok(sizes)
}

/// Where each of the parts goes, among so many places.
fn places_of(
    alloc: Global,
    scenario: &Scenario,
    division: &Division,
    most: usize,
) -> Result<Vec<u8>, Memory>
    requires divides { length division.now.part_of ≡ member_count scenario.now }
    requires few { (1 ≤ most) × (most ≤ 64) }
    ensures each { IfOk result (λ places. vec_len places ≡ division.now.parts) }
    ensures below { IfOk result (λ places. All (λ place. place < most) places.items) }
    ensures even { IfOk result (λ places. IsEven division.now most (λ part. slice_index_or places.items part most)) }
{
    let sizes = sizes_of(alloc, scenario, division)?;
    let mut filled = vec![in alloc; 0; most]?;
    let mut places = Vec::new(alloc);
    for size in &sizes {
        let place = least_of(&filled);
        filled[place] += *size;
        places.push(place as u8)?;
    }
    Ok(places)
}

/// The first place of the least of these.
fn least_of(filled: &[usize]) -> usize
    requires some { 0 < length filled.now }
    ensures within { result < length filled.now }
    ensures least { EachIndex filled.now (λ k. slice_index filled.now result ≤ slice_index filled.now k) }
    ensures first { (k : ℕ) → k < result → slice_index filled.now result < slice_index filled.now k }
{
    let mut least = 0;
    for place in 1..filled.len() {
        if filled[place] < filled[least] {
            least = place;
        }
    }
    least
}
