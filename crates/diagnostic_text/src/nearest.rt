//! The nearest name: at most a third of a name's letters away from it.
use schema::{FormatKey, KeyRule};
use std::alloc::{AllocError, Global};
use strsim::levenshtein;

/// A name that is longer than any that the format knows is near none.
const LONGEST: usize = 80;

/// How many edits lead from a name to another; none where those are too many.
pub(crate) fn distance(
    alloc: Global,
    name: &str,
    other: &str,
) -> Result<Option<usize>, AllocError> {
    if name.len() > LONGEST || other.len() > LONGEST {
        return Ok(None);
    }
    let letters = name.chars().count();
    let edits = levenshtein(alloc, name, other)?;
    if edits <= letters / 3 {
        Ok(Some(edits))
    } else {
        Ok(None)
    }
}

/// The nearest key of rows.
pub(crate) fn nearest_key(
    alloc: Global,
    name: &str,
    rows: &[KeyRule],
) -> Result<Option<FormatKey>, AllocError> {
    let mut nearest = None;
    let mut least = usize::MAX;
    for row in rows {
        if let Some(edits) = distance(alloc, name, row.key.text())?
            && edits < least
        {
            least = edits;
            nearest = Some(row.key);
        }
    }
    Ok(nearest)
}
