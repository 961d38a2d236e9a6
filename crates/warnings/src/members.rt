//! Conditions that several warnings share: whether there are two members, a moment is past the end, a member is down.
ghost use Rattle.std.specs.Prelude.{◌≡◌, false, fold};
ghost use Rattle.warnings.specs.Conditions.{are_several, down_after, goes_by, is_past, is_down, is_unconfirmed};

use base::{MemberId, Moment};
use meaning::least_suspicion;
use scenario::{Scenario, ScriptEvent, ScriptKind};

/// Whether there are two members: one alone probes nobody and is suspected by nobody.
pub(crate) fn are_several(scenario: &Scenario) -> bool
    ensures { result ≡ are_several scenario.now }
{
    scenario.members() > 1
}

/// Whether a moment is after the end.
pub(crate) fn is_past(scenario: &Scenario, at: Moment) -> bool
    ensures { result ≡ is_past scenario.now at }
{
    scenario.end().ticks() < at.ticks()
}

/// Whether the member has crashed or left by a moment, and not started again.
pub(crate) fn is_down(scenario: &Scenario, member: MemberId, at: Moment) -> bool
    ensures { result ≡ is_down scenario.now member at }
{
    member.index() < scenario.members() && ends_down(scenario.script(member), at)
}

/// Whether a member with this script is down at a moment.
fn ends_down(script: &[ScriptEvent], at: Moment) -> bool
    ensures { result ≡ fold (down_after at) false script.now }
{
    let mut down = false;
    for event in script {
        down = down_after(down, event, at);
    }
    down
}

/// Whether a member that was down or not is down after an event of its script, if that has come by a moment.
fn down_after(down: bool, event: &ScriptEvent, at: Moment) -> bool
    ensures { result ≡ down_after at down event.now }
{
    if event.at.ticks() <= at.ticks() {
        goes_by(event.kind)
    } else {
        down
    }
}

/// Whether a member goes by an event of its script.
fn goes_by(kind: ScriptKind) -> bool
    ensures { result ≡ goes_by kind }
{
    match kind {
        ScriptKind::Crash | ScriptKind::Leave => true,
        ScriptKind::Restart(_) => false,
    }
}

/// Whether a crash at this moment is in time, but too late to be confirmed before the end.
pub(crate) fn is_unconfirmed(scenario: &Scenario, at: Moment) -> bool
    ensures { result ≡ is_unconfirmed scenario.now at }
{
    let end = scenario.end().ticks();
    are_several(scenario) && at.ticks() <= end && end < at.ticks() + least_suspicion(scenario)
}
