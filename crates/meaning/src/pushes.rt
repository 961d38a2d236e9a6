//! How often members push and pull: the wait between two pushes grows with the cluster's size (memberlist's rules),
//! once more for each doubling past 32 members.
ghost use Rattle.std.specs.Prelude.{◌≡◌, ◌≤◌, ◌^◌, ◌*◌, count_by, nat_lt};
ghost use Rattle.scenario.specs.Setup.{member_count};
ghost use Rattle.member.specs.Step.{doublings_to};
ghost use Rattle.meaning.specs.Pushes.{half_push, push_period, pushes_in};

use scenario::Scenario;

/// How long a member waits from one push to the next while it knows all members and holds none as
/// confirmed; 0 where nobody pushes.
pub fn push_period(scenario: &Scenario) -> u64
    ensures value { result ≡ push_period scenario.now }
    ensures short { result ≤ 2 ^ 24 * 10 }
{
    match scenario.gossip() {
        Some(gossip) => gossip.push * (1 + doublings_to(scenario.members())),
        None => 0,
    }
}

/// How many pushes begin in so many ticks.
pub(crate) fn pushes_in(scenario: &Scenario, ticks: u64) -> u64
    ensures value { result ≡ pushes_in scenario.now ticks }
    ensures few { result ≤ ticks }
{
    let period = push_period(scenario);
    if period > 0 { ticks / period } else { 0 }
}

/// Half of `push`, the middle of the numbers below it; 0 where nobody pushes.
pub(crate) fn half_push(scenario: &Scenario) -> u64
    ensures value { result ≡ half_push scenario.now }
    ensures short { result ≤ 2 ^ 24 }
{
    match scenario.gossip() {
        Some(gossip) => gossip.push / 2,
        None => 0,
    }
}

/// How often 32 is doubled until it isn't below a number of members.
#[tactic(auto, using(crate::proofs::Doublings::sizes_below))]
fn doublings_to(members: usize) -> u64
    requires { members ≤ 16384 }
    ensures value { result ≡ doublings_to members }
    ensures few { result ≤ 9 }
{
    below(&[32, 64, 128, 256, 512, 1024, 2048, 4096, 8192], members) as u64
}

/// How many of these sizes are below a number of members.
fn below(sizes: &[usize], members: usize) -> usize
    ensures { result ≡ count_by (λ size. nat_lt size members) sizes.now }
{
    sizes.iter().filter(|size| **size < members).count()
}
