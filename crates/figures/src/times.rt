//! The times of crashes that were detected.
ghost use Rattle.std.specs.Prelude.{◌≡◌, ◌++◌, OnOk};
ghost use Rattle.std.specs.List.{filter_map};
ghost use Rattle.std.specs.Option.{option_to_list};
ghost use Rattle.figures.specs.Settings.{suspected_in, confirmed_in, last_in};

use crate::crashes::{CrashTimes, confirmed_in, last_in, suspected_in};
use base::Memory;

/// Adds the time until each of these crashes was first suspected, where it was.
pub(crate) fn push_suspected(times: &mut Vec<u64>, crashes: &[CrashTimes]) -> Result<(), Memory>
    ensures { OnOk result (times.new.items ≡ times.old.items ++ filter_map suspected_in crashes.now) }
{
    for crash in crashes {
        push_time(times, suspected_in(crash))?;
    }
    Ok(())
}

/// Adds the time until each of these crashes was first confirmed, where it was.
pub(crate) fn push_confirmed(times: &mut Vec<u64>, crashes: &[CrashTimes]) -> Result<(), Memory>
    ensures { OnOk result (times.new.items ≡ times.old.items ++ filter_map confirmed_in crashes.now) }
{
    for crash in crashes {
        push_time(times, confirmed_in(crash))?;
    }
    Ok(())
}

/// Adds the time until each of these crashes was last confirmed, where it was.
pub(crate) fn push_last(times: &mut Vec<u64>, crashes: &[CrashTimes]) -> Result<(), Memory>
    ensures { OnOk result (times.new.items ≡ times.old.items ++ filter_map last_in crashes.now) }
{
    for crash in crashes {
        push_time(times, last_in(crash))?;
    }
    Ok(())
}

/// Adds a time, if there is one.
fn push_time(times: &mut Vec<u64>, time: Option<u64>) -> Result<(), Memory>
    ensures { OnOk result (times.new.items ≡ times.old.items ++ option_to_list time) }
{
    if let Some(time) = time {
        times.push(time)?;
    }
    Ok(())
}
