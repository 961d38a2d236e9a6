//! What each warning is about (a key, a table or an item of a list), and how its place in the scenario's text is given.
ghost use Rattle.std.specs.Prelude.{◌≡◌};
ghost use Rattle.warnings.specs.About.{about_of};

use crate::warning::Warning;

/// What a warning is about, for whoever looks for its place in the scenario's text. A number is that of
/// the item in its list, or the member's, from 0.
#[derive(Clone, Copy, Debug, PartialEq, Eq)]
pub enum About {
    Timeout,
    Period,
    End,
    Confirmations,
    Helpers,
    LinkLoss,
    Lifeguard,
    Spread,
    Gossip,
    Path(usize),
    PathLoss(usize),
    Slow(usize),
    SlowExtra(usize),
    Crash(usize),
    Leave(usize),
    Cut(usize),
    Pause(usize),
}

/// What a warning is about.
pub fn about_of(warning: Warning) -> About
    ensures { result ≡ about_of warning }
{
    match warning {
        Warning::LateAnswer => About::Timeout,
        Warning::LateRelay => About::Period,
        Warning::EarlyEnd => About::End,
        Warning::FewAccusers => About::Confirmations,
        Warning::ManyHelpers => About::Helpers,
        Warning::LostOnLink => About::LinkLoss,
        Warning::PartOfLifeguard => About::Lifeguard,
        Warning::LongSpread => About::Spread,
        Warning::NoGossip => About::Gossip,
        Warning::OddConfirmations => About::Confirmations,
        Warning::QuietRun => About::End,
        Warning::HiddenPath(place) => About::Path(place),
        Warning::LonelyPath(place) => About::Path(place),
        Warning::LostOnPath(place) => About::PathLoss(place),
        Warning::SlowPastEnd(place) => About::Slow(place),
        Warning::SlowWhileDown(place) => About::Slow(place),
        Warning::SlowAnswer(place) => About::SlowExtra(place),
        Warning::CrashPastEnd(member) => About::Crash(member),
        Warning::CrashUnconfirmed(member) => About::Crash(member),
        Warning::LeavePastEnd(place) => About::Leave(place),
        Warning::CutPastEnd(place) => About::Cut(place),
        Warning::PausePastEnd(place) => About::Pause(place),
        Warning::PauseWhileDown(place) => About::Pause(place),
        Warning::LongPause(place) => About::Pause(place),
    }
}

/// Where in a text something stands: line and column from 1, and its length in characters.
#[derive(Clone, Copy, Debug, PartialEq, Eq)]
pub struct Place {
    pub line: u64,
    pub column: u64,
    pub length: u64,
}

/// A warning, and the place in the text of what it is about.
#[derive(Clone, Copy, Debug, PartialEq, Eq)]
pub struct Placed {
    pub warning: Warning,
    pub place: Place,
}
