//! What stays the same in all rounds of a run: the cluster, its division into parts, the end, and the least times
//! into each part, which bound the windows.
ghost use Rattle.std.specs.Prelude.{◌≡◌, ◌↔◌, ◌<◌, ◌≤◌, ◌^◌, ℕ, length};
ghost use Rattle.std.specs.List.{AllByRecursion};
ghost use Rattle.scenario.specs.Setup.{member_count};
ghost use Rattle.lookahead.specs.Between.{part_number};
ghost use Rattle.lookahead_windows.specs.Plan.{AreWaysInto};
ghost use Rattle.lookahead_windows.specs.Basis.{GoBy, way_at};

use base::Moment;
use scenario::Division;
use windows::Cluster;

/// What every round of a run goes by.
#[derive(Clone, Copy)]
pub struct Rounds<'a> {
    /// Whose run it is.
    pub cluster: Cluster<'a>,
    /// Which part each of its members has.
    pub division: &'a Division,
    /// The last moment at which something happens.
    pub end: Moment,
    /// For each part how many ticks an event takes at least on its way into it.
    pub ways: &'a [u64],
    /// The least of these.
    pub shortest: u64,
}

/// What the rounds of the cluster's run go by, where these are the ways into the parts.
pub fn rounds_of<'a>(cluster: Cluster<'a>, division: &'a Division, ways: &'a [u64]) -> Rounds<'a>
    requires divides { length division.now.part_of ≡ member_count cluster.scenario.now }
    requires below { (m : _) → m < member_count cluster.scenario.now → part_number division.now m < division.now.parts }
    requires count { length ways.now ≡ division.now.parts }
    requires into { AreWaysInto cluster.scenario.now (part_number division.now) (way_at ways.now) }
    ensures rounds { GoBy result }
    ensures cluster { result.cluster ≡ cluster.entry }
    ensures division { result.division.now ≡ division.now }
    ensures end { result.end ≡ cluster.entry.scenario.now.end }
    ensures ways { result.ways.now ≡ ways.now }

    // The shortest is as long as each of the ways lets it be.
    ensures shortest { (t : ℕ) → t < 2 ^ 64 → AllByRecursion (λ way. t ≤ way) ways.now ↔ (t ≤ result.shortest) }
{
    Rounds {
        cluster,
        division,
        end: cluster.scenario.end(),
        ways,
        shortest: shortest_of(ways),
    }
}

/// The least of these ways. Where there is none, as much as a count of ticks can be.
fn shortest_of(ways: &[u64]) -> u64
    ensures { (t : ℕ) → t < 2 ^ 64 → AllByRecursion (λ way. t ≤ way) ways.now ↔ (t ≤ result) }
{
    let mut shortest = u64::MAX;
    for way in ways {
        shortest = shortest.min(*way);
    }
    shortest
}
