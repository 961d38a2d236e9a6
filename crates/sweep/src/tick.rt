//! How long the ticks of a sweep's runs are.
ghost use Rattle.std.specs.Prelude.{◌≤◌};
ghost use Rattle.toml.specs.View.{view};
ghost use Rattle.sweep.specs.Runs.{IsTickOf};

use toml::Value;
use written_values::tick_in;

/// How many microseconds a tick has where a document doesn't say it.
const MILLISECOND: u64 = 1000;

/// How many microseconds a tick of a document has.
pub(crate) fn tick_of(document: &Value) -> u64
    ensures is { IsTickOf (view document.now) result }
    ensures few { result ≤ 1000000 }
{
    match tick_in(document) {
        Ok(tick) => tick,
        Err(_) => MILLISECOND,
    }
}
