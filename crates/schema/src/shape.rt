//! The rules on the shape of a document: which keys its tables have, and of what kind and range
//! their values are.
ghost use Rattle.std.specs.Prelude.{◌≡◌, ◌≤◌, Some, map, true, false, is_some, is_none, option_map, option_copied, OnOk, IfErr, ◌||◌};
ghost use Rattle.std.specs.List.{list_any};
ghost use Rattle.std.specs.Option.{option_map_or};
ghost use Rattle.toml.specs.View.{view};
ghost use Rattle.schema.specs.Tree.{section_table, tables_at, tables_below, rule_named, keys_of, items_of};
ghost use Rattle.schema.specs.Shape.{rule_of, is_over_0, is_refused, is_missing, is_empty_list, is_absent, has_fault, is_other_kind, is_outside, is_within, row_is_broken, table_is_broken, is_broken, table_breaks, breaks, least_broken_of_shape, KeepsShape};

use crate::schema::{Absence, KeyRule, Kind, Section, Version};
use thiserror::Error;
use toml::Value;

/// What is asked of the tables of a document, in the order of the rules.
#[derive(Clone, Copy, Debug, PartialEq, Eq, Error)]
pub enum Check {
    /// A required key is missing.
    #[error("a required key is missing")]
    Missing,
    /// A key is unknown.
    #[error("a key is unknown")]
    Unknown,
    /// A value is of another kind.
    #[error("a value is of another kind")]
    WrongKind,
    /// A whole number is outside its range.
    #[error("a whole number is outside its range")]
    OutOfRange,
}

impl Check {
    /// The number of the rule: 2 to 5, in the order of the checks.
    pub fn rule(self) -> u8
        ensures rule { result ≡ rule_of self }
        ensures numbered { (2 ≤ result) × (result ≤ 5) }
    {
        match self {
            Check::Missing => 2,
            Check::Unknown => 3,
            Check::WrongKind => 4,
            Check::OutOfRange => 5,
        }
    }
}

/// Where a document breaks a rule, for people.
#[derive(Clone, Copy, Debug, PartialEq, Eq)]
pub enum TablePlace {
    /// In the whole text, or in a table that stands once.
    Table,
    /// In the item at this index of a list, counted from 0.
    Item(usize),
}

/// The least rule on its shape that a document breaks.
#[derive(Clone, Copy, Debug, PartialEq, Eq, Error)]
#[error("{check}")]
pub struct ShapeFault {
    /// Which rule is broken.
    pub check: Check,
    /// Where it is first broken.
    pub place: TablePlace,
}

/// Judges the whole text, the tables and the items of lists that its keys call for, by the rules on
/// the shape in a version. A document that breaks one is refused by the least such rule.
pub fn check_shape(version: Version, tree: &Value) -> Result<(), ShapeFault>
    ensures kept { OnOk result (KeepsShape version (view tree.now)) }
    ensures err { IfErr result (λ fault. least_broken_of_shape version (view tree.now) ≡ Some (rule_of fault.check)) }
{
    if is_broken(version, tree) {
        return keep_each(version, tree);
    }
    Ok(())
}

/// Judges the document by one rule after the other, each on all tables.
fn keep_each(version: Version, tree: &Value) -> Result<(), ShapeFault>
    ensures kept { OnOk result (KeepsShape version (view tree.now)) }
    ensures err { IfErr result (λ fault. least_broken_of_shape version (view tree.now) ≡ Some (rule_of fault.check)) }
{
    if let Err(fault) = keep(version, Check::Missing, tree) {
        return Err(fault);
    }
    if let Err(fault) = keep(version, Check::Unknown, tree) {
        return Err(fault);
    }
    if let Err(fault) = keep(version, Check::WrongKind, tree) {
        return Err(fault);
    }
    if let Err(fault) = keep(version, Check::OutOfRange, tree) {
        return Err(fault);
    }
    Ok(())
}

/// Whether the document breaks any of the rules. Nearly none does, so this looks each key up only once.
fn is_broken(version: Version, tree: &Value) -> bool
    ensures { result ≡ is_broken version (view tree.now) }
{
    if is_table_broken(version, Section::Top, tree) {
        return true;
    }
    is_any_broken_below(version, Section::Top.rows(version), tree)
}

/// Whether anything that the rows call for breaks any of the rules.
fn is_any_broken_below(version: Version, rows: &[KeyRule], tree: &Value) -> bool
    ensures { result ≡ list_any (λ row. list_any (table_is_broken version) (tables_below (view tree.now) row)) rows.now }
{
    rows.iter().any(|row| is_any_broken_at(version, row, tree))
}

/// Whether anything that a row calls for breaks any of the rules.
fn is_any_broken_at(version: Version, row: &KeyRule, tree: &Value) -> bool
    ensures { result ≡ list_any (table_is_broken version) (tables_below (view tree.now) row.now) }
{
    match tree.get(row.key.text()) {
        Some(value) => is_any_broken_in(version, row.kind, value),
        None => false,
    }
}

/// Whether the value of a key of this kind breaks any of the rules, as a table or as a list of tables.
fn is_any_broken_in(version: Version, kind: Kind, value: &Value) -> bool
    ensures { result ≡ list_any (table_is_broken version) (tables_at kind (Some (view value.now))) }
{
    match kind {
        Kind::Table(section) => is_table_broken(version, section, value),
        Kind::List(section) => is_any_item_broken(version, section, items(value)),
        Kind::Whole { .. } | Kind::Switch | Kind::Text => false,
    }
}

/// Whether any item breaks any of the rules.
fn is_any_item_broken(version: Version, section: Section, items: &[Value]) -> bool
    ensures { result ≡ list_any (λ v. table_is_broken version (section_table section (view v))) items.now }
{
    items
        .iter()
        .any(|item| is_table_broken(version, section, item))
}

/// Whether a value that has to be a table of the section breaks any of the rules.
#[tactic(auto, unfolding(crate::specs::Shape::table_is_broken))]
fn is_table_broken(version: Version, section: Section, value: &Value) -> bool
    ensures { result ≡ table_is_broken version (section_table section (view value.now)) }
{
    let rows = section.rows(version);
    !value.is_table() || has_unknown_key(rows, value) || is_any_row_broken(rows, value)
}

/// Whether the key of one of the rows is missing, or its value of another kind or outside its range.
fn is_any_row_broken(rows: &[KeyRule], table: &Value) -> bool
    ensures { result ≡ list_any (row_is_broken (view table.now)) rows.now }
{
    rows.iter().any(|row| is_row_broken(row, table))
}

/// Whether the row's key is missing, or its value of another kind or outside its range.
fn is_row_broken(row: &KeyRule, table: &Value) -> bool
    ensures { result ≡ row_is_broken (view table.now) row.now }
{
    let found = table.get(row.key.text());
    (is_refused(row.absence, table) && is_absent(row.kind, found))
        || is_found_broken(row.kind, found)
}

/// Whether there is a value, and of another kind or outside its range.
fn is_found_broken(kind: Kind, found: Option<&Value>) -> bool
    ensures { result ≡ option_map_or (λ d. is_other_kind kind d || is_outside kind d) (option_map (λ v. view v.now) found.entry) false }
{
    match found {
        Some(value) => is_value_broken(kind, value),
        None => false,
    }
}

/// Whether a value is of another kind or outside its range.
fn is_value_broken(kind: Kind, value: &Value) -> bool
    ensures { result ≡ (is_other_kind kind (view value.now) || is_outside kind (view value.now)) }
{
    match kind {
        Kind::Whole { least, most } => match value {
            Value::Integer(number) => !is_within(least, most, *number),
            _ => true,
        },
        Kind::Switch => !value.is_bool(),
        Kind::Text => !value.is_str(),
        Kind::Table(_) => false,
        Kind::List(_) => !value.is_array(),
    }
}

/// Refuses a document that breaks the rule.
fn keep(version: Version, check: Check, tree: &Value) -> Result<(), ShapeFault>
    ensures ok { OnOk result (breaks version check (view tree.now) ≡ false) }
    ensures err { IfErr result (λ fault. (breaks version check (view tree.now) ≡ true) × (fault.check ≡ check)) }
{
    match first_broken(version, check, tree) {
        Some(place) => Err(ShapeFault { check, place }),
        None => Ok(()),
    }
}

/// Where the document first breaks the rule.
fn first_broken(version: Version, check: Check, tree: &Value) -> Option<TablePlace>
    ensures { is_some result ≡ breaks version check (view tree.now) }
{
    if breaks(version, check, Section::Top, tree) {
        return Some(TablePlace::Table);
    }
    first_broken_below(version, check, Section::Top.rows(version), tree)
}

/// Where what the rows call for first breaks the rule.
fn first_broken_below(
    version: Version,
    check: Check,
    rows: &[KeyRule],
    tree: &Value,
) -> Option<TablePlace>
    ensures { is_some result ≡ list_any (λ row. list_any (table_breaks version check) (tables_below (view tree.now) row)) rows.now }
{
    for row in rows {
        if let Some(value) = tree.get(row.key.text())
            && let Some(place) = first_broken_in(version, check, row.kind, value)
        {
            return Some(place);
        }
    }
    None
}

/// Where the value of a key of this kind first breaks the rule, as a table or as a list of tables.
fn first_broken_in(version: Version, check: Check, kind: Kind, value: &Value) -> Option<TablePlace>
    ensures { is_some result ≡ list_any (table_breaks version check) (tables_at kind (Some (view value.now))) }
{
    match kind {
        Kind::Table(section) => breaks(version, check, section, value).then_some(TablePlace::Table),
        Kind::List(section) => first_broken_item(version, check, section, items(value)),
        Kind::Whole { .. } | Kind::Switch | Kind::Text => None,
    }
}

/// The number of the first item that breaks the rule.
fn first_broken_item(
    version: Version,
    check: Check,
    section: Section,
    items: &[Value],
) -> Option<TablePlace>
    ensures { is_some result ≡ list_any (λ v. table_breaks version check (section_table section (view v))) items.now }
{
    for (i, item) in items.iter().enumerate() {
        if breaks(version, check, section, item) {
            return Some(TablePlace::Item(i));
        }
    }
    None
}

/// The items of a list.
pub(crate) fn items(value: &Value) -> &[Value]
    ensures { map view result.now ≡ items_of (view value.now) }
{
    match value {
        Value::Array(items) => items.as_slice(),
        _ => &[],
    }
}

/// Whether a value that has to be a table of the section breaks the rule.
#[tactic(auto, unfolding(crate::specs::Shape::table_breaks))]
fn breaks(version: Version, check: Check, section: Section, value: &Value) -> bool
    ensures { result ≡ table_breaks version check (section_table section (view value.now)) }
{
    let rows = section.rows(version);
    match check {
        Check::Missing => value.is_table() && is_any_missing(rows, value),
        Check::Unknown => has_unknown_key(rows, value),
        Check::WrongKind => !value.is_table() || has_any_other_kind(rows, value),
        Check::OutOfRange => is_any_outside(rows, value),
    }
}

/// Whether the key of one of the rows is required and absent.
fn is_any_missing(rows: &[KeyRule], table: &Value) -> bool
    ensures { result ≡ list_any (is_missing (view table.now)) rows.now }
{
    rows.iter().any(|row| is_missing(row, table))
}

/// Whether the row's key is required and absent.
fn is_missing(row: &KeyRule, table: &Value) -> bool
    ensures { result ≡ is_missing (view table.now) row.now }
{
    is_refused(row.absence, table) && is_absent(row.kind, table.get(row.key.text()))
}

/// Whether the table may not lack a key of this absence.
fn is_refused(absence: Absence, table: &Value) -> bool
    ensures { result ≡ is_refused (view table.now) absence }
{
    match absence {
        Absence::Refused => true,
        Absence::RefusedOver0(key) => is_over_0(table.get(key.text())),
        Absence::Default(_) | Absence::Off | Absence::Optional => false,
    }
}

/// Whether the value is a whole number over 0.
fn is_over_0(value: Option<&Value>) -> bool
    ensures { result ≡ is_over_0 (option_map (λ v. view v.now) value.entry) }
{
    match value {
        Some(Value::Integer(number)) => *number > 0,
        _ => false,
    }
}

/// Whether nothing is there, or of a list no item.
fn is_absent(kind: Kind, value: Option<&Value>) -> bool
    ensures { result ≡ is_absent kind (option_map (λ v. view v.now) value.entry) }
{
    match value {
        None => true,
        Some(value) => match kind {
            Kind::List(_) => is_empty_list(value),
            Kind::Whole { .. } | Kind::Switch | Kind::Text | Kind::Table(_) => false,
        },
    }
}

/// Whether the value is a list with no item.
fn is_empty_list(value: &Value) -> bool
    ensures { result ≡ is_empty_list (view value.now) }
{
    match value {
        Value::Array(items) => items.is_empty(),
        _ => false,
    }
}

/// Whether a table has a key that none of the rows names.
fn has_unknown_key(rows: &[KeyRule], value: &Value) -> bool
    ensures { result ≡ list_any (λ key. is_none (rule_named rows.now key)) (keys_of (view value.now)) }
{
    match value {
        Value::Table(table) => table
            .keys()
            .any(|key| rule_named(rows, key.as_str()).is_none()),
        _ => false,
    }
}

/// The row of the key that is spelt so.
pub(crate) fn rule_named<'a>(rows: &'a [KeyRule], name: &str) -> Option<&'a KeyRule>
    ensures { option_copied result ≡ rule_named rows.now name.now }
{
    rows.iter().find(|row| row.key.text() == name)
}

/// Whether the value of one of the rows' keys is of another kind.
fn has_any_other_kind(rows: &[KeyRule], table: &Value) -> bool
    ensures { result ≡ list_any (has_fault is_other_kind (view table.now)) rows.now }
{
    rows.iter().any(|row| has_other_kind(row, table))
}

/// Whether the value of the row's key is of another kind.
fn has_other_kind(row: &KeyRule, table: &Value) -> bool
    ensures { result ≡ has_fault is_other_kind (view table.now) row.now }
{
    match table.get(row.key.text()) {
        Some(value) => match row.kind {
            Kind::Whole { .. } => !value.is_integer(),
            Kind::Switch => !value.is_bool(),
            Kind::Text => !value.is_str(),
            Kind::Table(_) => false,
            Kind::List(_) => !value.is_array(),
        },
        None => false,
    }
}

/// Whether the value of one of the rows' keys is a whole number outside its range.
fn is_any_outside(rows: &[KeyRule], table: &Value) -> bool
    ensures { result ≡ list_any (has_fault is_outside (view table.now)) rows.now }
{
    rows.iter().any(|row| is_outside(row, table))
}

/// Whether the value of the row's key is a whole number outside its range.
fn is_outside(row: &KeyRule, table: &Value) -> bool
    ensures { result ≡ has_fault is_outside (view table.now) row.now }
{
    match (row.kind, table.get(row.key.text())) {
        (Kind::Whole { least, most }, Some(Value::Integer(number))) => {
            !is_within(least, most, *number)
        }
        _ => false,
    }
}

/// Whether a number is in a range, both ends included.
fn is_within(least: u64, most: u64, number: i64) -> bool
    ensures { result ≡ is_within least most number }
{
    match u64::try_from(number) {
        Ok(number) => least <= number && number <= most,
        Err(_) => false,
    }
}
