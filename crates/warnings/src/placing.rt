//! Pairs each warning with the line and column in the scenario's text of what it is about.
ghost use Rattle.std.specs.Prelude.{◌≡◌, IfOk, map};

use crate::about::{Placed, about_of};
use crate::lines::{line_starts, place_of_span};
use crate::origins::plain_entries;
use crate::spans::{Document, crash_items, span_of};
use crate::warning::Warning;
use base::Memory;
use scenario::Scenario;
use std::alloc::Global;

/// The warnings of a scenario, each with the place in the scenario's text of what it is about: the key
/// or the item of a list, and where it isn't there the table that lacks it, or the end of the text. Or
/// `Memory` where it was refused.
pub fn places_of(
    alloc: Global,
    text: &str,
    scenario: &Scenario,
    warnings: &[Warning],
) -> Result<Vec<Placed>, Memory>
    ensures { IfOk result (λ placed. map (λ p. p.warning) placed.items ≡ warnings.now) }
{
    let places = toml_places::read(alloc, text)?;
    let plain = plain_entries(alloc, text)?;
    let crashes = crash_items(alloc, &places, scenario, plain.as_ref())?;
    let document = Document {
        places: &places,
        plain: plain.as_ref(),
        crashes: &crashes,
    };
    let starts = line_starts(alloc, text.as_bytes())?;
    let mut placed = Vec::new(alloc);
    for warning in warnings {
        let span = span_of(&document, scenario, about_of(*warning));
        placed.push(Placed {
            warning: *warning,
            place: place_of_span(text, starts.as_slice(), span),
        })?;
    }
    Ok(placed)
}
