//! Rule 10: how many members there are.
use crate::cause::Cause;
use crate::walk::Walk;
use base::Memory;
use schema::{FormatKey, Section};

/// Judges that the groups have no more members than there may be. It is reported at the group by which there
/// are too many.
pub(crate) fn judge_size(walk: &mut Walk<'_>) -> Result<(), Memory> {
    let most = walk.version.most_members();
    let mut members = 0u128;
    let mut full = None;
    for item in walk.items(FormatKey::Group) {
        let count = walk.number(Section::Group, *item, FormatKey::Count);
        members = members.saturating_add(u128::from(count.unwrap_or(0)));
        if members > u128::from(most) && full.is_none() {
            full = Some(*item);
        }
    }
    match full {
        Some(item) => {
            let span = walk.value_of(item, FormatKey::Count);
            walk.add(10, Cause::TooManyMembers { members, most }, span)
        }
        None => Ok(()),
    }
}
