//! The units of time of a text.
ghost use Rattle.std.specs.Prelude.{◌≡◌, ℕ, ◌*◌, ◌≤◌};
ghost use Rattle.lengths.specs.Lengths.{unit_length, unit_word};

/// A unit of time that a length may have.
#[derive(Clone, Copy, Debug, PartialEq, Eq)]
pub enum Unit {
    Microsecond,
    Millisecond,
    Second,
    Minute,
    Hour,
    Day,
}

/// How a unit is named.
pub(crate) fn unit_word<'a>(unit: Unit) -> &'a [u8]
    ensures { result.now ≡ unit_word unit }
{
    match unit {
        Unit::Microsecond => b"us",
        Unit::Millisecond => b"ms",
        Unit::Second => b"s",
        Unit::Minute => b"m",
        Unit::Hour => b"h",
        Unit::Day => b"d",
    }
}

/// How many microseconds it has.
pub(crate) fn unit_length(unit: Unit) -> u64
    ensures value { result ≡ unit_length unit }
    ensures few { result ≤ 86400000000 }
{
    match unit {
        Unit::Microsecond => 1,
        Unit::Millisecond => 1000,
        Unit::Second => 1_000_000,
        Unit::Minute => 60_000_000,
        Unit::Hour => 3_600_000_000,
        Unit::Day => 86_400_000_000,
    }
}
