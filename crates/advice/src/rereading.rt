//! Files that a command has read, read again.
ghost use Rattle.std.specs.Prelude.{◌≡◌};

use crate::surroundings::Surroundings;
use files::Files;
use std::alloc::Global;

/// What a file holds that a command has read; none where it gives its bytes only once, as a pipe: such a file could also let the
/// program wait for a writer that never comes.
pub(crate) fn read_again<F: Files, A: Surroundings>(
    alloc: Global,
    surroundings: &A,
    name: &str,
    files: &mut F,
) -> Option<Vec<u8>>
    ensures same { F.known files.new ≡ F.known files.old }
    ensures making { F.making files.new ≡ F.making files.old }
    ensures counted { F.refused files.new ≡ F.refused files.old }
{
    if !surroundings.can_read_again(name) {
        return None;
    }
    match files.read(alloc, name) {
        Ok(bytes) => Some(bytes),
        Err(_) => None,
    }
}
