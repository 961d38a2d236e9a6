//! Times in which members are slow, paused or blocked: once, or again and again.
ghost use Rattle.plain_entries.specs.Spells.{spell_timing, IsSpellTime};

use crate::timing::When;
use base::Moment;
use scenario::Spell;
use script_draws::{DrawFault, Lasting, Recurrence, TextStream, spells};
use std::alloc::Global;

/// When members are slow, paused or blocked.
#[derive(Clone, Copy, Debug)]
pub enum SpellTime {
    /// Once, all at the same time.
    Once {
        spell: Spell,
    },
    /// Again and again, each by itself.
    Again {
        recurrence: Recurrence,
        lasting: Lasting,
    },
}

impl When for SpellTime {
    type Time = Spell;

    ghost timing = { spell_timing };

    ghost is_sound = { IsSpellTime };

    fn recurs(&self) -> bool {
        matches!(self, SpellTime::Again { .. })
    }

    fn times(
        &self,
        alloc: Global,
        stream: &mut TextStream,
        _k: u64,
        _start: Moment,
        room: u64,
    ) -> Result<Vec<Spell>, DrawFault> {
        match *self {
            SpellTime::Once { spell } => Ok(vec![in alloc; spell]?),
            SpellTime::Again {
                recurrence,
                lasting,
            } => spells(alloc, stream, recurrence, lasting, room),
        }
    }
}
