//! Why a value is refused.
ghost use Rattle.std.specs.Prelude.{◌≡◌};
ghost use Rattle.written_values.specs.Values.{rule_of};

/// Why a value is refused.
#[derive(Clone, Copy, Debug, PartialEq, Eq)]
pub enum ValueFault {
    /// Rule 4: it is of another kind.
    WrongKind,
    /// Rule 5: it is outside its range, or no whole number of ticks.
    OutOfRange,
}

impl ValueFault {
    /// The number of the rule.
    pub fn rule(self) -> u8
        ensures { result ≡ rule_of self }
    {
        match self {
            ValueFault::WrongKind => 4,
            ValueFault::OutOfRange => 5,
        }
    }
}
