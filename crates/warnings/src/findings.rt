//! What `findings_of` returns for a scenario: its lookahead (the least link delay), its greatest round trip, its warnings.
ghost use Rattle.std.specs.Prelude.{◌≤◌, ◌^◌, IfOk};
ghost use Rattle.warnings.specs.Findings.{AreFindings};

use crate::list::warnings_of;
use crate::warning::Warning;
use base::Memory;
use links::Links;
use meaning::greatest_round_trip;
use scenario::Scenario;
use std::alloc::Global;

/// What is found in a scenario, beside its settings.
#[derive(Drop)]
pub struct Findings {
    /// The least delay of a link from a member to another one, in ticks, which is the length of a
    /// window; None where there is but one member.
    pub window: Option<u64>,
    /// The greatest round trip, in ticks, over all pairs of different members: the longest time of a
    /// message and of the answer, where nobody is slow; 0 where there is but one member.
    pub round_trip: u64,
    /// What the scenario is warned of.
    pub warnings: Vec<Warning>,
}

/// What is found in a scenario, or `Memory` where it was refused.
pub fn findings_of(alloc: Global, scenario: &Scenario) -> Result<Findings, Memory>
    ensures found { IfOk result (AreFindings scenario.now) }
    ensures short { IfOk result (λ f. f.round_trip ≤ 2 ^ 22) }
{
    let links = Links::of(alloc, scenario)?;
    let round_trip = greatest_round_trip(alloc, scenario)?;
    Ok(Findings {
        window: links.least_delay(),
        round_trip,
        warnings: warnings_of(alloc, scenario, round_trip)?,
    })
}
