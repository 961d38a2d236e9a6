//! The units of time that words may name.
ghost use Rattle.std.specs.Prelude.{◌≡◌, ◌≤◌};
ghost use Rattle.ticks.specs.Ticks.{unit_length, unit_word};

/// A unit of time that a word may name.
#[derive(Clone, Copy, Debug, PartialEq, Eq)]
pub enum Unit {
    Microsecond,
    Millisecond,
    Second,
}

/// How a unit is named.
pub(crate) fn unit_word<'a>(unit: Unit) -> &'a str
    ensures { result.now ≡ unit_word unit }
{
    match unit {
        Unit::Microsecond => "us",
        Unit::Millisecond => "ms",
        Unit::Second => "s",
    }
}

/// How many microseconds it has.
pub(crate) fn unit_length(unit: Unit) -> u64
    ensures value { result ≡ unit_length unit }
    ensures some { 1 ≤ result }
    ensures few { result ≤ 1000000 }
{
    match unit {
        Unit::Microsecond => 1,
        Unit::Millisecond => 1000,
        Unit::Second => 1_000_000,
    }
}
