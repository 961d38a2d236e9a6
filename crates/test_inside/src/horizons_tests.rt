//! Divisions of few members, worked out by hand.

use base::Moment;
use links::Links;
use lookahead::{Horizons, horizons};
use lookahead_windows::{round_bound, ways_into};
use scenario::{Division, Scenario};
use scenario_reader::read;
use std::alloc::Global;
use std::process::Abort;
use windows::Cluster;

/// What all texts begin with.
const HEAD: &str = "version = 1
seed = 7
end = 0
swim = { period = 1000, timeout = 300 }
";

/// Three sites of one member each: from the first to the third it is farther straight than by the
/// second.
const SITES: &str = "link = { delay = 50 }
[[group]]
name = \"a\"
count = 1
[[group]]
name = \"b\"
count = 1
[[group]]
name = \"c\"
count = 1
[[path]]
from = \"a\"
to = \"c\"
delay = 100
[[path]]
from = \"a\"
to = \"b\"
delay = 10
[[path]]
from = \"b\"
to = \"c\"
delay = 20
";

/// Two sites of two members each, with one way faster than the other, and the fastest within a
/// site.
const PAIRS: &str = "link = { delay = 50 }
[[group]]
name = \"a\"
count = 2
[[group]]
name = \"b\"
count = 2
[[path]]
from = \"a\"
to = \"b\"
delay = 3
[[path]]
from = \"b\"
to = \"a\"
delay = 7
[[path]]
from = \"a\"
to = \"a\"
delay = 1
";

/// Three sites of one member each, of which the first reaches the second fast, and the second the third.
const CHAIN: &str = "link = { delay = 100 }
[[group]]
name = \"a\"
count = 1
[[group]]
name = \"b\"
count = 1
[[group]]
name = \"c\"
count = 1
[[path]]
from = \"a\"
to = \"b\"
delay = 10
[[path]]
from = \"b\"
to = \"c\"
delay = 10
";

/// The scenario of a text, and its members' parts.
#[derive(Clone, Copy)]
struct Divided {
    text: &'static str,
    parts: usize,
    part_of: &'static [u8],
}

const BY_SITES: Divided = Divided {
    text: SITES,
    parts: 3,
    part_of: &[0, 1, 2],
};

const IN_CHAIN: Divided = Divided {
    text: CHAIN,
    parts: 3,
    part_of: &[0, 1, 2],
};

/// Parts 1 and 4 have no members.
const WITH_EMPTY: Divided = Divided {
    text: SITES,
    parts: 5,
    part_of: &[0, 2, 3],
};

const TWO: Divided = Divided {
    text: PAIRS,
    parts: 2,
    part_of: &[0, 0, 1, 1],
};

/// A member of each site in each part.
const MIXED: Divided = Divided {
    text: PAIRS,
    parts: 2,
    part_of: &[0, 1, 0, 1],
};

const ONE: Divided = Divided {
    text: PAIRS,
    parts: 1,
    part_of: &[0, 0, 0, 0],
};

/// Only the second part has members.
const ALONE: Divided = Divided {
    text: PAIRS,
    parts: 2,
    part_of: &[1, 1, 1, 1],
};

/// A division, and of two of its parts the length of the least walk from the one to the other.
const WALKS: [(Divided, &[(usize, usize, Option<u64>)]); 7] = [
    (
        IN_CHAIN,
        &[
            (0, 0, Some(110)),
            (0, 1, Some(10)),
            (0, 2, Some(20)),
            (1, 0, Some(100)),
            (1, 1, Some(110)),
            (1, 2, Some(10)),
            (2, 0, Some(100)),
            (2, 1, Some(100)),
            (2, 2, Some(110)),
        ],
    ),
    (
        BY_SITES,
        &[
            (0, 1, Some(10)),
            (1, 2, Some(20)),
            (0, 2, Some(30)),
            (2, 0, Some(50)),
            (0, 0, Some(60)),
            (1, 1, Some(60)),
            (2, 2, Some(70)),
        ],
    ),
    (
        WITH_EMPTY,
        &[
            (0, 3, Some(30)),
            (0, 0, Some(60)),
            (0, 1, None),
            (1, 0, None),
            (4, 4, None),
        ],
    ),
    (
        TWO,
        &[
            (0, 1, Some(3)),
            (1, 0, Some(7)),
            (0, 0, Some(10)),
            (1, 1, Some(10)),
        ],
    ),
    (MIXED, &[(0, 1, Some(1)), (0, 0, Some(2))]),
    (ONE, &[(0, 0, None)]),
    (ALONE, &[(1, 1, None), (0, 1, None), (1, 0, None)]),
];

/// What pends first in each part of the chain: nothing does in the second, which all the same lies on the way from the
/// first to the third.
const PENDING: [Option<u64>; 3] = [Some(50), None, Some(500)];

/// For each of them the moment before which nothing can come to it from what pends, and how far its window goes, which
/// is no further.
const CHAIN_AT_50: [(u64, u64); 3] = [(160, 150), (60, 60), (70, 60)];

/// For a division the way into each of its parts, and how far its window goes where something pends first at 5: each beyond
/// the shortest way, by which all parts could go. Without a walk a way is as long as is likely to have some thousands of events.
const WAYS: [(Divided, &[(u64, u64)]); 4] = [
    (BY_SITES, &[(50, 55), (10, 15), (20, 25)]),
    (IN_CHAIN, &[(100, 105), (10, 15), (10, 15)]),
    (TWO, &[(7, 12), (3, 8)]),
    (ONE, &[(1_024_000, 1001)]),
];

/// The scenario of a text.
fn scenario_of(alloc: Global, rt: &impl Abort, text: &str) -> Scenario {
    let text = format!(in alloc; "{HEAD}{text}").ok().expect(rt, "memory");
    read(alloc, text.as_bytes()).ok().expect(rt, "accepted")
}

/// The horizons of a division by these parts of the members.
fn horizons_of(
    alloc: Global,
    rt: &impl Abort,
    text: &str,
    parts: usize,
    part_of: &[u8],
) -> Horizons {
    let scenario = &scenario_of(alloc, rt, text);
    let part_of = part_of.to_vec(alloc).ok().expect(rt, "memory");
    let division = Division::new(scenario, parts, part_of)
        .ok()
        .expect(rt, "divided");
    let links = &match Links::of(alloc, scenario) {
        Ok(links) => links,
        Err(_) => panic!(rt; "want of memory"),
    };
    assert!(rt; division.members() == scenario.members());
    horizons(alloc, Cluster { scenario, links }, &division)
        .ok()
        .expect(rt, "memory")
}

/// Asserts how long the least walks between parts of this division are.
fn assert_walks(
    rt: &(impl Abort + AllocGlobal),
    case: &Divided,
    walks: &[(usize, usize, Option<u64>)],
) {
    let made = horizons_of(rt.alloc(), rt, case.text, case.parts, case.part_of);
    for (from, to, wanted) in walks {
        assert!(rt; *from < made.parts());
        assert!(rt; *to < made.parts());
        assert_eq!(rt; made.walk(*from, *to), *wanted, "from {from} to {to}");
    }
}

#[test]
fn walks_are_least(rt: HostRuntime) {
    for (case, walks) in &WALKS {
        assert_walks(&rt, case, walks);
    }
}

/// Asserts the ways into the parts of this division, and the bounds by them.
fn assert_ways(rt: &(impl Abort + AllocGlobal), case: &Divided, wanted: &[(u64, u64)]) {
    let made = horizons_of(rt.alloc(), rt, case.text, case.parts, case.part_of);
    let scenario = scenario_of(rt.alloc(), rt, case.text);
    let ways = ways_into(rt.alloc(), &scenario, &made)
        .ok()
        .expect(rt, "memory");
    assert!(rt; ways.len() == wanted.len());
    for (part, (way, bound)) in wanted.iter().enumerate() {
        assert_eq!(rt; ways[part], *way, "into {part}");
        let until = round_bound(Moment(5), Moment(1000), *way);
        assert_eq!(rt; until.ticks(), *bound, "of {part}");
    }
}

#[test]
fn ways_are_least_walks_into_parts(rt: HostRuntime) {
    for (case, wanted) in &WAYS {
        assert_ways(&rt, case, wanted);
    }
}

/// The first moment at which something can come to the part, of three, from what pends in any of them.
fn first_to_come(rt: &impl Abort, made: &Horizons, part: usize) -> u64 {
    assert!(rt; made.parts() == 3);
    assert!(rt; part < 3);
    let mut first = u64::MAX;
    for (from, pending) in PENDING.iter().enumerate() {
        assert!(rt; from < 3);
        if let (Some(at), Some(walk)) = (*pending, made.walk(from, part)) {
            first = first.min(at.saturating_add(walk));
        }
    }
    first
}

#[test]
fn windows_of_a_chain_stay_before_what_can_come(rt: HostRuntime) {
    let alloc = rt.alloc();
    let Divided {
        text,
        parts,
        part_of,
    } = IN_CHAIN;
    let made = horizons_of(alloc, &rt, text, parts, part_of);
    let scenario = scenario_of(alloc, &rt, text);
    let ways = ways_into(alloc, &scenario, &made)
        .ok()
        .expect(&rt, "memory");
    for (part, (horizon, bound)) in CHAIN_AT_50.iter().enumerate() {
        assert_eq!(rt; first_to_come(&rt, &made, part), *horizon, "to {part}");
        assert!(rt; part < ways.len());
        let until = round_bound(Moment(50), Moment(1000), ways[part]);
        assert_eq!(rt; until.ticks(), *bound, "of {part}");
        assert!(rt; *bound <= *horizon);
    }
}
