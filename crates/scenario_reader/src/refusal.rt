//! Why the reader refuses a scenario's text: the number of the least broken rule, and the place that breaks it.
use schema::{ShapeFault, TablePlace};
use thiserror::Error;

/// Why a text was refused.
#[derive(Clone, Copy, Debug, PartialEq, Eq, Error)]
#[error("scenario rule {rule}")]
pub struct Refusal {
    /// The least rule that the text breaks:
    /// 1 it is no TOML document, 2 a required table or key is missing, 3 a key is unknown,
    /// 4 a value is of another kind, 5 a whole number is outside its range, 6 a group name is of
    /// another form or stands twice, 7 a name is no member's or no group's, 8 before version 4 a member
    /// crashes or leaves twice, or both, or two of its slow times or of its pauses overlap, 9 the timeout
    /// isn't below the period, a contact may not be, a crash, a leave or a restart isn't after the start, or
    /// a slow time, a cut, a pause or a block is over when it begins, 10 there are more members than 1,024,
    /// or 4,096 in versions 2 and 3, or 16,384 in version 4; 11 memory was refused.
    pub rule: u8,
    /// Where the text breaks the rule, for people. For rule 1 the byte at which the fault begins,
    /// counted from 0; else the number of the item of a list that breaks it, counted from 1, or
    /// 0 where it is no item's. Greater numbers than fit are the greatest that fits.
    pub place: u32,
}

impl Refusal {
    ghost use Rattle.std.specs.Prelude.{◌≡◌, ◌≤◌};
    ghost use Rattle.schema.specs.Shape.{rule_of};

    /// Memory was refused.
    pub(crate) fn memory() -> Refusal
        ensures { result.rule ≡ 11 }
    {
        Refusal { rule: 11, place: 0 }
    }

    /// The rule is broken in the item at this index.
    pub(crate) fn in_item(rule: u8, index: usize) -> Refusal
        ensures { result.rule ≡ rule }
    {
        Refusal {
            rule,
            place: number_of(index),
        }
    }

    /// The document breaks a rule on its shape.
    pub(crate) fn of_shape(fault: ShapeFault) -> Refusal
        ensures rule { result.rule ≡ rule_of fault.check }
        ensures numbered { (2 ≤ result.rule) × (result.rule ≤ 5) }
    {
        let rule = fault.check.rule();
        match fault.place {
            TablePlace::Item(index) => Refusal::in_item(rule, index),
            TablePlace::Table => Refusal { rule, place: 0 },
        }
    }
}

/// The number of the item at an index, counted from 1.
fn number_of(index: usize) -> u32 {
    u32::try_from(index.saturating_add(1)).unwrap_or(u32::MAX)
}

/// A place in the text as it is printed for people.
pub(crate) fn place_of_byte(byte: usize) -> u32 {
    u32::try_from(byte).unwrap_or(u32::MAX)
}
