//! Why the six lists of a text are refused.
ghost use Rattle.std.specs.Prelude.{◌≡◌};
ghost use Rattle.expansion.specs.Verdict.{rule_of};

use written_entries::EntryFault;

/// Why the six lists of a text are refused.
#[derive(Clone, Copy, Debug, PartialEq, Eq)]
pub enum ScriptRefusal {
    /// An entry breaks rule 9.
    Entry(EntryFault),
    /// Rule 10: `every` makes more than 100,000 entries, or comes too often before the start of members.
    TooMany,
    /// A plain entry breaks rule 5: its moment is past 2^40.
    Late,
    /// Memory was refused.
    Memory,
}

impl ScriptRefusal {
    /// The number of the rule; 11 where memory was refused.
    pub fn rule(self) -> u8
        ensures { result ≡ rule_of self }
    {
        match self {
            ScriptRefusal::Entry(_) => 9,
            ScriptRefusal::TooMany => 10,
            ScriptRefusal::Late => 5,
            ScriptRefusal::Memory => 11,
        }
    }
}
