//! The text's stream of draws, with the room that is left for entries that `every` makes.
ghost use Rattle.std.specs.Prelude.{◌≡◌, ◌^◌, ◌<◌, IfOk, OnErr, Err, length};
ghost use Rattle.streams.specs.Draw.{words_of};
ghost use Rattle.plain_entries.specs.Who.{who_of};

use crate::who::Who;
use base::MemberId;
use script_draws::{DrawFault, TextStream, chosen};
use std::alloc::Global;

/// The text's stream, and how many entries `every` may still make.
#[derive(Drop)]
pub(crate) struct Drawing {
    pub stream: TextStream,
    pub room: u64,
}

impl Drawing {
    /// The members that an entry is about.
    pub(crate) fn members(&mut self, alloc: Global, who: &Who) -> Result<Vec<MemberId>, DrawFault>
        requires { length who.now.members.items < 2 ^ 32 }
        ensures made { IfOk result (λ made. (made.items, words_of self.new.stream) ≡ who_of who.now (words_of self.old.stream)) }
        ensures room { self.new.room ≡ self.old.room }
        ensures memory { OnErr result (result ≡ Err DrawFault.Memory) }
    {
        match chosen(alloc, &mut self.stream, who.members.as_slice(), who.count) {
            Ok(members) => Ok(members),
            Err(_) => Err(DrawFault::Memory),
        }
    }
}
