//! The fixed words of each warning: its kind, its reason without numbers, and what mends it.
ghost use Rattle.std.specs.Prelude.{◌≡◌};
ghost use Rattle.meaning_text.specs.Words.{kind_of, reason_of, remedy_of};

use warnings::Warning;

/// The word for a kind of warning.
#[tactic(auto, unfolding(crate::specs::Words::kind_of))]
pub fn kind_of(warning: Warning) -> &'static str
    ensures { result.now ≡ kind_of warning }
{
    match warning {
        Warning::LateAnswer => "late-answer",
        Warning::LateRelay => "late-relay",
        Warning::EarlyEnd => "early-end",
        Warning::FewAccusers => "few-accusers",
        Warning::ManyHelpers => "many-helpers",
        Warning::LostOnLink => "lost-on-link",
        Warning::PartOfLifeguard => "part-of-lifeguard",
        Warning::LongSpread => "long-spread",
        Warning::NoGossip => "no-gossip",
        Warning::OddConfirmations => "odd-confirmations",
        Warning::QuietRun => "quiet-run",
        Warning::HiddenPath(_) => "hidden-path",
        Warning::LonelyPath(_) => "lonely-path",
        Warning::LostOnPath(_) => "lost-on-path",
        Warning::SlowPastEnd(_) => "slow-past-end",
        Warning::SlowWhileDown(_) => "slow-while-down",
        Warning::SlowAnswer(_) => "slow-answer",
        Warning::CrashPastEnd(_) => "crash-past-end",
        Warning::CrashUnconfirmed(_) => "crash-unconfirmed",
        Warning::LeavePastEnd(_) => "leave-past-end",
        Warning::CutPastEnd(_) => "cut-past-end",
        Warning::PausePastEnd(_) => "pause-past-end",
        Warning::PauseWhileDown(_) => "pause-while-down",
        Warning::LongPause(_) => "long-pause",
    }
}

/// What a warning says, without its numbers.
#[tactic(auto, unfolding(crate::specs::Words::reason_of))]
pub(crate) fn reason_of(warning: Warning) -> &'static str
    ensures { result.now ≡ reason_of warning }
{
    match warning {
        Warning::LateAnswer => "an answer can come after the timeout though nobody is slow",
        Warning::LateRelay => "an answer by way of a helper can come after the period",
        Warning::EarlyEnd => "the run ends before a first suspicion can run out",
        Warning::FewAccusers => "the cluster has fewer members that can accuse than are wanted",
        Warning::ManyHelpers => "the cluster has fewer members that can help than are asked",
        Warning::LostOnLink => "every message is lost on each link that no path names",
        Warning::PartOfLifeguard => "a part of Lifeguard is on and a part is off",
        Warning::LongSpread => "some members may begin their first period after the end",
        Warning::NoGossip => "by memberlist's rules news spreads by [gossip], which is not there",
        Warning::OddConfirmations =>
            "no memberlist has this lifeguard.confirmations with this suspicion.alpha",
        Warning::QuietRun =>
            "nothing happens: no loss, no crash, nobody slow, paused, cut off or late",
        Warning::HiddenPath(_) => "a later path names the same two groups and hides this one",
        Warning::LonelyPath(_) => "the group has one member, so it has no link to itself",
        Warning::LostOnPath(_) => "every message is lost on this path",
        Warning::SlowPastEnd(_) => "the slow time begins after the end",
        Warning::SlowWhileDown(_) => "the member is down as its slow time begins",
        Warning::SlowAnswer(_) => "an answer can come after the timeout while the member is slow",
        Warning::CrashPastEnd(_) => "the crash is after the end",
        Warning::CrashUnconfirmed(_) => "no suspicion that the crash causes can run out in time",
        Warning::LeavePastEnd(_) => "the leave is after the end",
        Warning::CutPastEnd(_) => "the cut begins after the end",
        Warning::PausePastEnd(_) => "the pause begins after the end",
        Warning::PauseWhileDown(_) => "the member is down as its pause begins",
        Warning::LongPause(_) =>
            "the pause is longer than the shortest suspicion, so others may declare the member dead",
    }
}

/// What fixes what a warning reports.
#[tactic(auto, unfolding(crate::specs::Words::remedy_of))]
pub fn remedy_of(warning: Warning) -> &'static str
    ensures { result.now ≡ remedy_of warning }
{
    match warning {
        Warning::LateAnswer =>
            "raise swim.timeout to the greatest round trip, or shorten the links",
        Warning::LateRelay => "raise swim.period to the timeout and two round trips",
        Warning::EarlyEnd => "raise end, or lower swim.period or suspicion.alpha",
        Warning::FewAccusers => "lower lifeguard.confirmations, or add members",
        Warning::ManyHelpers => "lower swim.helpers, or add members",
        Warning::LostOnLink => "lower link.loss, or use a cut that ends",
        Warning::PartOfLifeguard => "set probe, suspicion and buddy alike, unless you compare them",
        Warning::LongSpread => "lower swim.spread to the period, or raise end",
        Warning::NoGossip => "add [gossip], as `init lan` prints it",
        Warning::OddConfirmations => "set lifeguard.confirmations to suspicion.alpha less 2",
        Warning::QuietRun =>
            "nothing, if you ask what a quiet cluster costs; else add what is to happen, as a [[crash]]",
        Warning::HiddenPath(_) => "remove this path or the later one",
        Warning::LonelyPath(_) => "remove the path, or add members to the group",
        Warning::LostOnPath(_) => "lower its loss, or use a cut that ends",
        Warning::SlowPastEnd(_) => "move it before the end, or raise end",
        Warning::SlowWhileDown(_) => "move it before the crash or leave, or remove it",
        Warning::SlowAnswer(_) =>
            "nothing, if that is what you try; else lower extra or raise swim.timeout",
        Warning::CrashPastEnd(_) => "move it before the end, or raise end",
        Warning::CrashUnconfirmed(_) => "raise end, or let the member crash earlier",
        Warning::LeavePastEnd(_) => "move it before the end, or raise end",
        Warning::CutPastEnd(_) => "move it before the end, or raise end",
        Warning::PausePastEnd(_) => "move it before the end, or raise end",
        Warning::PauseWhileDown(_) => "move it before the crash or leave, or remove it",
        Warning::LongPause(_) =>
            "nothing, if that is what you try; else shorten it or raise suspicion.alpha",
    }
}
