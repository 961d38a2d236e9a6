//! The settings that differ in one axis alone, as lines over its values.
ghost use Rattle.std.specs.Prelude.{◌≡◌};
ghost use Rattle.sweep_keys.specs.Lines.{key_lines, setting_place, width, middle, across, shared_out};

use sweep_plan::Swept;

/// The most lines that are drawn over a key.
const MOST_LINES: usize = 8;

/// How wide the room of a value is, in the units of a plot.
const ROOM: u64 = 32;

/// Where the settings of a key lie among all: its values come again each time that the keys before it
/// change, and each value stays while the keys after it take all of theirs.
#[derive(Clone, Copy)]
pub struct KeyLines {
    /// How many keys go together: one where it is a key alone.
    pub keys: usize,
    /// How many values the key has.
    pub values: usize,
    /// How many settings the keys after it make.
    pub after: usize,
    /// How many lines are drawn.
    pub lines: usize,
}

impl KeyLines {
    /// The lines over so many keys of so many values, of so many settings.
    #[tactic(auto, unfolding(crate::specs::Lines::key_lines))]
    pub(crate) fn new(keys: usize, values: usize, after: usize, settings: usize) -> KeyLines
        ensures { result ≡ key_lines keys values after settings }
    {
        let lines = (settings / values.max(1)).min(MOST_LINES);
        KeyLines {
            keys,
            values,
            after,
            lines,
        }
    }

    /// The place among all settings of a line's setting with the value at a place.
    #[tactic(auto, unfolding(crate::specs::Lines::setting_place))]
    pub(crate) fn place(&self, line: usize, value: usize) -> usize
        ensures { result ≡ setting_place self.now line value }
    {
        let after = self.after.max(1);
        let round = after.saturating_mul(self.values);
        let start = (line / after).saturating_mul(round);
        start
            .saturating_add(value.saturating_mul(after))
            .saturating_add(line % after)
    }

    /// How wide the plot is.
    #[tactic(auto, unfolding(crate::specs::Lines::width))]
    pub(crate) fn width(&self) -> u64
        ensures { result ≡ width self.now }
    {
        (self.values as u64).saturating_mul(ROOM).max(1)
    }

    /// Where a line's dot stands over the value at a place: lines stand beside each other.
    #[tactic(auto, unfolding(crate::specs::Lines::across))]
    pub(crate) fn across(&self, line: usize, value: usize) -> u64
        ensures { result ≡ across self.now line value }
    {
        let aside = (line as u64).saturating_mul(2);
        middle(value)
            .saturating_sub((self.lines as u64).saturating_sub(1))
            .saturating_add(aside)
    }
}

/// The middle of the room of the value at a place.
#[tactic(auto, unfolding(crate::specs::Lines::middle))]
pub(crate) fn middle(value: usize) -> u64
    ensures { result ≡ middle value }
{
    (value as u64).saturating_mul(ROOM).saturating_add(ROOM / 2)
}

/// How many of so many settings stand for each choice that these keys leave.
pub(crate) fn shared_out(settings: usize, swept_keys: &[Swept]) -> usize
    ensures { result ≡ shared_out settings swept_keys.now }
{
    let mut left = settings;
    for swept in swept_keys {
        left /= swept.choice_count().max(1);
    }
    left
}
