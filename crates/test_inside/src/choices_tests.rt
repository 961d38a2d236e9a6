//! Scenarios that are run by choices of members, worked out by hand.

use crate::part_tests::{assert_rows, scenario_of};
use base::MemberId;
use scenario::Scenario;
use std::alloc::Global;
use std::process::Abort;
use std::test::Fail;
use trace::What;
use windows::play;

/// Some members of one group, and what choices of them come to.
#[derive(Clone, Copy)]
struct Case {
    members: u64,
    delay: u64,
    end: u64,
    choices: &'static [u16],
    rows: &'static [(u64, u16, What)],
    handled: usize,
    skipped: usize,
    left: Option<u64>,
}

/// Two members over the fastest link: both start at 0, probe at 1, and hear of each other at 2 and 3.
const FAST: Case = Case {
    members: 2,
    delay: 1,
    end: 3,
    choices: &[],
    rows: &[],
    handled: 0,
    skipped: 0,
    left: Some(0),
};

const CASES: [Case; 9] = [
    FAST,
    // The timer at 1 isn't below 0 + 1, since the other member hasn't started.
    Case {
        choices: &[0, 0],
        rows: &[(0, 0, What::Start)],
        handled: 1,
        skipped: 1,
        ..FAST
    },
    Case {
        choices: &[1, 0, 0],
        rows: &[(0, 0, What::Start), (0, 1, What::Start), (1, 0, What::Ping)],
        handled: 3,
        left: Some(1),
        ..FAST
    },
    // Numbers that no member has.
    Case {
        choices: &[2, 65535],
        skipped: 2,
        ..FAST
    },
    // All that is due, by turns.
    Case {
        choices: &[1, 0, 1, 0, 1, 0, 1, 0, 1, 0],
        rows: &[
            (0, 0, What::Start),
            (0, 1, What::Start),
            (1, 0, What::Ping),
            (1, 1, What::Ping),
            (2, 0, What::Ack),
            (2, 1, What::Ack),
        ],
        handled: 8,
        skipped: 2,
        left: None,
        ..FAST
    },
    // Where only the starts are in time.
    Case {
        delay: 10,
        end: 0,
        choices: &[1, 0, 0],
        rows: &[(0, 0, What::Start), (0, 1, What::Start)],
        handled: 2,
        skipped: 1,
        left: None,
        ..FAST
    },
    // Over a slower link a member may be ahead: its timer at 1 is below 0 + 10, and the other's start isn't needed.
    Case {
        delay: 10,
        end: 21,
        choices: &[0, 0],
        rows: &[(0, 0, What::Start), (1, 0, What::Ping)],
        handled: 2,
        ..FAST
    },
    // What a member ahead has sent comes after the other's start.
    Case {
        delay: 10,
        end: 21,
        choices: &[0, 0, 1, 1, 1],
        rows: &[
            (0, 0, What::Start),
            (0, 1, What::Start),
            (1, 0, What::Ping),
            (1, 1, What::Ping),
            (11, 1, What::Ack),
        ],
        handled: 5,
        left: Some(11),
        ..FAST
    },
    // Alone a member has no limit but the end: it starts, and has a timer in each of five periods.
    Case {
        members: 1,
        delay: 10,
        end: 5000,
        choices: &[0, 0, 0, 0, 0, 0, 0],
        rows: &[(0, 0, What::Start)],
        handled: 6,
        skipped: 1,
        left: None,
        ..FAST
    },
];

fn scenario_for(rt: &impl Abort, alloc: Global, case: &Case) -> Scenario {
    let (members, delay, end) = (case.members, case.delay, case.end);
    let text = format!(in alloc;
        "version = 1
seed = 7
end = {end}
[swim]
period = 1000
timeout = 300
spread = 1
[link]
delay = {delay}
[[group]]
name = \"n\"
count = {members}
"
    );
    match text {
        Ok(text) => scenario_of(rt, alloc, text.as_str()),
        Err(_) => panic!(rt; "want of memory"),
    }
}

/// The members of these numbers.
fn members(rt: &impl Abort, alloc: Global, numbers: &[u16]) -> Vec<MemberId> {
    let mut members = Vec::new(alloc);
    for number in numbers {
        match members.push(MemberId(*number)) {
            Ok(()) => {}
            Err(_) => panic!(rt; "want of memory"),
        }
    }
    members
}

fn assert_played(rt: &impl Abort, alloc: Global, case: &Case) {
    let scenario = scenario_for(rt, alloc, case);
    let choices = members(rt, alloc, case.choices);
    let played = match play(alloc, &scenario, &choices) {
        Ok(played) => played,
        Err(_) => panic!(rt; "the choices were refused"),
    };
    assert_rows(rt, &played.rows, case.rows);
    assert!(rt; played.handled == case.handled);
    assert!(rt; played.skipped == case.skipped);
    let left = match played.left {
        Some(left) => Some(left.ticks()),
        None => None,
    };
    assert!(rt; left == case.left);
}

#[test]
fn choices_handle_what_is_safe(rt: HostRuntime) -> Result<(), Fail> {
    for case in &CASES {
        assert_played(&rt, rt.alloc(), case);
    }
    Ok(())
}
