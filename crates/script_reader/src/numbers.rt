//! What the keys of an item that count ticks say.
ghost use Rattle.std.specs.Prelude.{◌≡◌, ◌<◌, ◌^◌};
ghost use Rattle.lengths.specs.Lengths.{IsTick};
ghost use Rattle.toml.specs.Data.{get};
ghost use Rattle.toml.specs.View.{view};
ghost use Rattle.script_reader.specs.Numbers.{any_fault, is_fault, number_or, AreNumbersOf, AreWithin, SaysReading};

use toml::Value;
use written_values::{ValueFault, ticks_in};

/// The last moment that a text may name.
const LAST_MOMENT: u64 = 0x100_0000_0000;

/// The longest time that comes again and again.
const LONGEST: u64 = 0x8000_0000;

/// By how much a member may be slow at the most.
const MOST_EXTRA: u64 = 0x100_0000;

/// What the keys of an item that count ticks say; nothing of a key that isn't there.
#[derive(Clone, Copy, Debug)]
pub struct EntryNumbers {
    pub at: Option<Result<u64, ValueFault>>,
    pub each: Option<Result<u64, ValueFault>>,
    pub back: Option<Result<u64, ValueFault>>,
    pub from: Option<Result<u64, ValueFault>>,
    pub until: Option<Result<u64, ValueFault>>,
    pub every: Option<Result<u64, ValueFault>>,
    pub lasts: Option<Result<u64, ValueFault>>,
    pub lasts_most: Option<Result<u64, ValueFault>>,
    pub extra: Option<Result<u64, ValueFault>>,
}

impl EntryNumbers {
    /// What the keys of an item say. A tick has so many microseconds.
    pub fn of(item: &Value, tick: u64) -> EntryNumbers
        requires { IsTick tick }
        ensures numbers { AreNumbersOf tick (view item.now) result }
        ensures within { AreWithin result }
    {
        EntryNumbers {
            at: ticks_at(item, "at", tick, 0, LAST_MOMENT),
            each: ticks_at(item, "each", tick, 0, LAST_MOMENT),
            back: ticks_at(item, "back", tick, 1, LAST_MOMENT),
            from: ticks_at(item, "from", tick, 0, LAST_MOMENT),
            until: ticks_at(item, "until", tick, 0, LAST_MOMENT),
            every: ticks_at(item, "every", tick, 1, LONGEST),
            lasts: ticks_at(item, "lasts", tick, 1, LONGEST),
            lasts_most: ticks_at(item, "lasts_most", tick, 1, LONGEST),
            extra: ticks_at(item, "extra", tick, 1, MOST_EXTRA),
        }
    }

    /// Whether one of the keys breaks the rule.
    pub(crate) fn any_fault(&self, fault: ValueFault) -> bool
        ensures { result ≡ any_fault fault self.now }
    {
        is_fault(fault, self.at)
            || (is_fault(fault, self.each)
                || (is_fault(fault, self.back)
                    || (is_fault(fault, self.from)
                        || (is_fault(fault, self.until)
                            || (is_fault(fault, self.every)
                                || (is_fault(fault, self.lasts)
                                    || (is_fault(fault, self.lasts_most)
                                        || is_fault(fault, self.extra))))))))
    }
}

/// What a key says, of `least` to `most` ticks.
fn ticks_at(
    item: &Value,
    key: &str,
    tick: u64,
    least: u64,
    most: u64,
) -> Option<Result<u64, ValueFault>>
    requires tick { IsTick tick }
    requires low { most < 2 ^ 63 }
    ensures { SaysReading tick least most (get key.now (view item.now)) result }
{
    match item.get(key) {
        Some(value) => Some(ticks_in(value, tick, least, most)),
        None => None,
    }
}

/// Whether what a key says breaks the rule.
pub(crate) fn is_fault(fault: ValueFault, reading: Option<Result<u64, ValueFault>>) -> bool
    ensures { result ≡ is_fault fault reading }
{
    match reading {
        Some(Err(found)) => match fault {
            ValueFault::WrongKind => matches!(found, ValueFault::WrongKind),
            ValueFault::OutOfRange => matches!(found, ValueFault::OutOfRange),
        },
        Some(Ok(_)) => false,
        None => false,
    }
}

/// The number that a key says, else this one.
pub(crate) fn number_or(default: u64, reading: Option<Result<u64, ValueFault>>) -> u64
    ensures { result ≡ number_or default reading }
{
    match reading {
        Some(Ok(number)) => number,
        Some(Err(_)) => default,
        None => default,
    }
}
