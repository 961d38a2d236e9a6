//! How the time of a run is divided for the figures of a page: at most 120 equal spans, and the span of each moment.
ghost use Rattle.std.specs.Prelude.{◌≡◌, ◌<◌, ◌≤◌};
ghost use Rattle.series.specs.Spans.{span_width, span_in, span_count};

use base::Moment;
use scenario::Scenario;

/// The equal spans into which the time of a run is divided, from moment 0 to its end: 60 to 120, or
/// one for each moment where there are fewer.
#[derive(Clone, Copy)]
pub struct Spans {
    /// How long each span is, in ticks.
    width: u64,
    ghost wide: { 0 < width },
}

impl Spans {
    /// The spans of a scenario.
    pub(crate) fn of(scenario: &Scenario) -> Spans
        ensures { result.width ≡ span_width scenario.now }
    {
        Spans {
            width: (scenario.end().ticks() + 120) / 120,
        }
    }

    /// How long each span is, in ticks.
    pub fn width(self) -> u64
        ensures value { result ≡ self.width }
        ensures wide { 0 < result }
    {
        self.width
    }

    /// The span of a moment, from 0; what comes later than all of them belongs to the last.
    pub(crate) fn span(self, at: Moment) -> usize
        ensures value { result ≡ span_in self.width at }
        ensures few { result ≤ 119 }
    {
        (at.ticks() / self.width).min(119) as usize
    }
}
