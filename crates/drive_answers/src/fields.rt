//! The members of an action's object: texts, truths and whole numbers.
ghost use Rattle.std.specs.Prelude.{◌≡◌, ◌↔◌, ℕ, ◌<◌, ◌≤◌, ◌^◌, Some, IfSome, IsNone, IsTrue, Bool, option_map, map, true, false, codes, decimal};
ghost use Rattle.std.specs.List.{list_any};
ghost use Rattle.std.specs.Option.{option_and_then, is_some};
ghost use Rattle.std.specs.Str.{bytes_eq};
ghost use Rattle.json.specs.Find.{get, as_str, as_number};
ghost use Rattle.json.specs.Value.{value_view, members_view};
ghost use Rattle.scenario.specs.Setup.{member_count, name_of};
ghost use Rattle.drive_answers.specs.Said.{has_only, has_only_members, IsWhole, OrUsual, IsTruth, greatest_value};

use base::MemberId;
use json::Value;
use scenario::Scenario;

/// The text of this name.
pub(crate) fn text<'v>(value: &'v Value<'_>, name: &str) -> Option<&'v str>
    ensures { option_map (λ s. s.now) result ≡ option_and_then as_str (get name.now (value_view value.now)) }
{
    match value.get(name) {
        Some(held) => held.as_str(),
        None => None,
    }
}

/// Whether there is a member of this name.
pub(crate) fn has(value: &Value<'_>, name: &str) -> bool
    ensures { result ≡ is_some (get name.now (value_view value.now)) }
{
    value.get(name).is_some()
}

/// The whole number of this name, if it is there and in its range.
pub(crate) fn whole(value: &Value<'_>, name: &str, least: u64, most: u64) -> Option<u64>
    requires { most < 2 ^ 63 }
    ensures some { IfSome result (IsWhole name.now (value_view value.now) least most) }
    ensures none { IsNone result → (n : ℕ) → ¬ (IsWhole name.now (value_view value.now) least most n) }
{
    match value.get(name) {
        Some(held) => in_range(number(held), least, most),
        None => None,
    }
}

/// The whole number that a value is, as it is written.
fn number(value: &Value<'_>) -> Option<u64>
    ensures some { IfSome result (λ n. (as_number (value_view value.now) ≡ Some (decimal n)) × (n < 2 ^ 63)) }
    ensures none { IsNone result → (n : ℕ) → n < 2 ^ 63 → ¬ (as_number (value_view value.now) ≡ Some (decimal n)) }
{
    match value.as_number() {
        Some(text) => decimals::number(text),
        None => None,
    }
}

/// A number where it is in a range.
fn in_range(number: Option<u64>, least: u64, most: u64) -> Option<u64>
    ensures some { IfSome result (λ n. (number ≡ Some n) × (least ≤ n) × (n ≤ most)) }
    ensures none { IsNone result → (n : ℕ) → number ≡ Some n → ¬ ((least ≤ n) × (n ≤ most)) }
{
    match number {
        Some(number) if least <= number && number <= most => Some(number),
        _ => None,
    }
}

/// The greatest value of a row, a message or a timer's number.
pub(crate) const GREATEST: u64 = 0x7fff_ffff_ffff_ffff;

/// The value of a message or a row: 0 where it is absent.
pub(crate) fn value_or_zero(object: &Value<'_>) -> Option<u64>
    ensures some { IfSome result
        (OrUsual (codes "value") (value_view object.now) (IsWhole (codes "value") (value_view object.now) 0 greatest_value) 0) }
    ensures none { IsNone result → (n : ℕ)
        → ¬ (OrUsual (codes "value") (value_view object.now) (IsWhole (codes "value") (value_view object.now) 0 greatest_value) 0 n) }
{
    if has(object, "value") {
        whole(object, "value", 0, GREATEST)
    } else {
        Some(0)
    }
}

/// Whether a message goes over a stream: not where that is absent.
pub(crate) fn stream_or_not(object: &Value<'_>) -> Option<bool>
    ensures some { IfSome result
        (OrUsual (codes "stream") (value_view object.now) (IsTruth (codes "stream") (value_view object.now)) false) }
    ensures none { IsNone result → (b : Bool)
        → ¬ (OrUsual (codes "stream") (value_view object.now) (IsTruth (codes "stream") (value_view object.now)) false b) }
{
    match object.get("stream") {
        Some(held) => held.as_bool(),
        None => Some(false),
    }
}

/// Whether there is a truth of this name, and it is so.
pub(crate) fn is_true(object: &Value<'_>, name: &str) -> bool
    ensures { IsTrue result ↔ IsTruth name.now (value_view object.now) true }
{
    match object.get(name) {
        Some(held) => held.as_bool() == Some(true),
        None => false,
    }
}

/// Whether the object has no members but those of these names.
pub(crate) fn has_only(object: &Value<'_>, names: &[&str]) -> bool
    ensures { result ≡ has_only (map (λ n. n.now) names.now) (value_view object.now) }
{
    match object {
        Value::Object(members) => has_only_members(members.as_slice(), names),
        _ => false,
    }
}

/// Whether each of these members has one of these names.
fn has_only_members(members: &[(&str, Value<'_>)], names: &[&str]) -> bool
    ensures { result ≡ has_only_members (map (λ n. n.now) names.now) (members_view members.now) }
{
    for member in members {
        if !is_among(member.0, names) {
            return false;
        }
    }
    true
}

/// Whether a name is one of these.
fn is_among(name: &str, names: &[&str]) -> bool
    ensures { result ≡ list_any (bytes_eq name.now) (map (λ n. n.now) names.now) }
{
    for other in names {
        if name == *other {
            return true;
        }
    }
    false
}

/// The member of this name.
pub(crate) fn member_named(scenario: &Scenario, name: &str) -> Option<MemberId>
    ensures some { IfSome result (λ m. m < member_count scenario.now) }
    ensures named { IfSome result (λ m. name_of scenario.now m ≡ name.now) }
    ensures none { IsNone result → (m : ℕ) → m < member_count scenario.now → ¬ (name_of scenario.now m ≡ name.now) }
{
    for number in 0..scenario.members() {
        let member = MemberId(number as u16);
        if scenario.name(member) == name {
            return Some(member);
        }
    }
    None
}
