//! What becomes of an event that may be sent, and whether who answers it may exit.
ghost use Rattle.std.specs.Prelude.{◌≡◌};
ghost use Rattle.drive_world.specs.Telling.{exits_at, fate_at, is_told_up, leaves_at, told_fate};

use base::{Key, Profile};
use drive_events::Content;
use drive_process::ProcessPhase;

/// What becomes of an event that may be sent.
#[derive(Clone, Copy, Debug, PartialEq, Eq)]
pub enum Fate {
    /// It is over at once, and isn't sent.
    Untold,
    /// It is sent, and over at once.
    Told,
    /// It is sent, and waits for its answer.
    Asked,
}

/// What becomes of an event of a member of this phase, whose process has this birth.
pub(crate) fn fate_at(key: &Key, content: &Content, phase: ProcessPhase, birth: u64) -> Fate
    ensures { result ≡ fate_at key.now content.now phase birth }
{
    match phase {
        ProcessPhase::Waiting => match content {
            Content::Start => Fate::Asked,
            _ => Fate::Untold,
        },
        ProcessPhase::Up => fate_up(key, content, birth),
        ProcessPhase::Leaving => match content {
            Content::Leave => Fate::Untold,
            _ => fate_up(key, content, birth),
        },
        ProcessPhase::Down => match content {
            Content::Restart => Fate::Asked,
            _ => Fate::Untold,
        },
    }
}

/// What becomes of an event of a member that runs.
fn fate_up(key: &Key, content: &Content, birth: u64) -> Fate
    ensures { result ≡ told_fate (is_told_up key.now content.now birth) content.now }
{
    match content {
        Content::Crash => Fate::Told,
        Content::Timer(_) => {
            if key.number < birth {
                Fate::Untold
            } else {
                Fate::Asked
            }
        }
        _ => Fate::Asked,
    }
}

/// Whether the process that answers an event of a member of this phase may exit.
pub(crate) fn exits_at(profile: Profile, content: &Content, phase: ProcessPhase) -> bool
    ensures { result ≡ exits_at profile content.now phase }
{
    match profile {
        Profile::Papers | Profile::Memberlist => false,
        Profile::Hashicorp => leaves_at(phase, content),
    }
}

/// Whether the process that answers an event was told to leave, at the latest by this event.
fn leaves_at(phase: ProcessPhase, content: &Content) -> bool
    ensures { result ≡ leaves_at phase content.now }
{
    match phase {
        ProcessPhase::Waiting | ProcessPhase::Down => false,
        ProcessPhase::Up => match content {
            Content::Leave => true,
            _ => false,
        },
        ProcessPhase::Leaving => match content {
            Content::Restart => false,
            _ => true,
        },
    }
}
