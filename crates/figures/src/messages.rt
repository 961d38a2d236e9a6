//! How many messages were sent, of all kinds.
ghost use Rattle.std.specs.Prelude.{◌≡◌, ◌<◌, ◌^◌, length};
ghost use Rattle.figures.specs.Figures.{messages_sent, messages_lost};

use reports::{Tallies, message_kinds};
use scenario::Version;

/// How many messages were sent. They are no more than there are rows.
pub(crate) fn sent(tallies: &Tallies, version: Version) -> u64
    requires { length tallies.now < 2 ^ 64 }
    ensures { result ≡ messages_sent version tallies.now }
{
    let kinds = message_kinds(version);
    let mut sent = 0;
    for kind in kinds {
        sent += tallies.rows_of(*kind);
    }
    sent
}

/// How many messages were lost. They are no more than there are rows.
pub(crate) fn lost(tallies: &Tallies, version: Version) -> u64
    requires { length tallies.now < 2 ^ 64 }
    ensures { result ≡ messages_lost version tallies.now }
{
    let kinds = message_kinds(version);
    let mut lost = 0;
    for kind in kinds {
        lost += tallies.lost(*kind);
    }
    lost
}
