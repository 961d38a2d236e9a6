//! When something is, of any kind: what the kinds of entries have in common.
ghost use Rattle.std.specs.Prelude.{◌≡◌, ◌≤◌, ◌<◌, ℕ, true, IfOk, Err, length};
ghost use Rattle.streams.specs.Draw.{words_of};
ghost use Rattle.plain_entries.specs.Entries.{Timing};

use base::Moment;
use script_draws::{DrawFault, TextStream};
use std::alloc::Global;

/// When the entries of one kind are.
pub trait When: Copy {
    /// A time of one member.
    type Time: Copy;

    // whether it comes again and again, and the times of a member
    ghost timing: { Timing Self Self.Time };

    // what the format allows
    ghost is_sound: { Self → Type 0 };

    /// Whether it comes again and again.
    fn recurs(&self) -> bool
        ensures { result ≡ timing.recurs self.now };

    /// The times of the k-th of an entry's members, who starts at a moment.
    ///
    /// # Errors
    ///
    /// `TooMany` where more come again and again than there is `room` for, and `Memory`; the stream may have gone on.
    fn times(
        &self,
        alloc: Global,
        stream: &mut TextStream,
        k: u64,
        start: Moment,
        room: u64,
    ) -> Result<Vec<Self::Time>, DrawFault>
        requires sound { is_sound self.now }
        requires few { k < 16384 }
        ensures made { IfOk result (λ made. (made.items, words_of stream.new) ≡ timing.times self.now k start (words_of stream.old)) }
        ensures within { IfOk result (λ made. timing.recurs self.now ≡ true → length made.items ≤ room) }
        ensures again { result ≡ Err DrawFault.TooMany → timing.recurs self.now ≡ true }
        ensures too_many { result ≡ Err DrawFault.TooMany → room < length (timing.times self.now k start (words_of stream.old)).0 };
}
