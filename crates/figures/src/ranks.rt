//! Percentiles of times, by the nearest rank.
ghost use Rattle.std.specs.Prelude.{◌≡◌, ◌≤◌, ◌<◌, ◌^◌, ℕ, List};
ghost use Rattle.std.specs.Ordering.{nat_cmp};
ghost use Rattle.std.specs.List.Sorted.{IsSorted, IsPermutation};
ghost use Rattle.figures.specs.Settings.{rank, at_rank};

/// The time of a percentile's rank among so many crashes, of which those that were detected at all
/// took these times, in ascending order. `None` where a crash stands there that wasn't.
pub(crate) fn percentile(times: &[u64], crashes: u128, percent: u128) -> Option<u64>
    requires ordered { IsSorted nat_cmp times.now }
    requires few { crashes < 2 ^ 100 }
    requires most { percent ≤ 100 }
    ensures { (given : List ℕ) → IsPermutation given times.now → result ≡ at_rank (rank percent crashes) given }
{
    let rank = (percent * crashes + 99) / 100;
    time_of_rank(times, rank.max(1))
}

/// The time at a rank, from 1.
fn time_of_rank(times: &[u64], rank: u128) -> Option<u64>
    requires ordered { IsSorted nat_cmp times.now }
    requires from_1 { 1 ≤ rank }
    ensures { (given : List ℕ) → IsPermutation given times.now → result ≡ at_rank rank given }
{
    if rank > times.len() as u128 {
        return None;
    }
    let place = (rank - 1) as usize;
    Some(times[place])
}
