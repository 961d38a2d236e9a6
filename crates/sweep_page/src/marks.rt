//! The marks of settings in the plot of all: a dot and a bar for each, a line through those on the
//! front, and their numbers.
ghost use Rattle.std.specs.Prelude.{◌≡◌, ◌++◌, OnOk, length};
ghost use Rattle.std.specs.List.{flat_map, range_with_len};
ghost use Rattle.std.specs.String.{string_bytes};
ghost use Rattle.sweep_page.specs.Front.{best_class, interval_bar, share_dot, size_of, mark_over, setting_mark, is_among, mark_at, all_marks, joint, joint_at, joined, number_mark};

use crate::front::Reach;
use crate::front_points::{FrontPoint, across_of, is_marked};
use drawing::{push_markup, push_place};
use figures::SettingSummary;
use std::alloc::AllocError;
use sweep_cells::{push_number, push_start, push_step, setting_at, share_of, thousandths};

/// Appends the marks of the settings on the front, or of the others.
pub(crate) fn push_marks(
    text: &mut String,
    settings: &[SettingSummary],
    front: &[bool],
    best: bool,
    reach: &Reach,
) -> Result<(), AllocError>
    ensures { OnOk result (string_bytes text.new ≡ string_bytes text.old ++ all_marks reach.now settings.now front.now best) }
{
    for place in 0..settings.len() {
        push_mark_at(text, settings, front, best, reach, place)?;
    }
    Ok(())
}

/// Appends the mark of the setting at a place, where it is among these.
#[tactic(auto, unfolding(crate::specs::Front::mark_at))]
fn push_mark_at(
    text: &mut String,
    settings: &[SettingSummary],
    front: &[bool],
    best: bool,
    reach: &Reach,
    place: usize,
) -> Result<(), AllocError>
    ensures { OnOk result (string_bytes text.new ≡ string_bytes text.old ++ mark_at reach.now settings.now front.now best place) }
{
    if !is_among(front, best, place) {
        return Ok(());
    }
    match setting_at(settings, place) {
        Some(setting) => push_setting(text, &setting, best, reach),
        None => Ok(()),
    }
}

/// Whether the setting at a place is on the front, where those are asked for, or isn't, where the
/// others are.
fn is_among(front: &[bool], best: bool, place: usize) -> bool
    ensures { result ≡ is_among front.now best place }
{
    let marked = is_marked(front, place);
    if best { marked } else { !marked }
}

/// Appends a setting's bar and dot, where it stands somewhere across.
#[tactic(auto, unfolding(crate::specs::Front::setting_mark))]
fn push_setting(
    text: &mut String,
    setting: &SettingSummary,
    best: bool,
    reach: &Reach,
) -> Result<(), AllocError>
    ensures { OnOk result (string_bytes text.new ≡ string_bytes text.old ++ setting_mark reach.now best setting.now) }
{
    match across_of(reach.crashed, setting) {
        Some(time) => push_mark_over(text, setting, time, best, reach),
        None => Ok(()),
    }
}

/// Appends its bar and dot over that time.
#[tactic(auto, unfolding(crate::specs::Front::mark_over))]
fn push_mark_over(
    text: &mut String,
    setting: &SettingSummary,
    time: u64,
    best: bool,
    reach: &Reach,
) -> Result<(), AllocError>
    ensures { OnOk result (string_bytes text.new ≡ string_bytes text.old ++ mark_over reach.now best setting.now time) }
{
    let class = best_class(best);
    let at = time.min(reach.across);
    let top = reach.up.saturating_sub(thousandths(setting.share_high));
    let bottom = reach.up.saturating_sub(thousandths(setting.share_low));
    let middle = reach.up.saturating_sub(share_of(setting));
    let size = size_of(setting.messages, reach.messages);
    push_interval_bar(text, class, at, top, bottom)?;
    push_share_dot(text, class, size, at, middle)
}

/// The class of what is on the front.
#[tactic(auto, unfolding(crate::specs::Front::best_class))]
fn best_class(best: bool) -> &'static str
    ensures { result.now ≡ best_class best }
{
    if best { " best" } else { "" }
}

/// Appends the bar of an interval.
#[tactic(auto, unfolding(crate::specs::Front::interval_bar))]
fn push_interval_bar(
    text: &mut String,
    class: &str,
    at: u64,
    top: u64,
    bottom: u64,
) -> Result<(), AllocError>
    ensures { OnOk result (string_bytes text.new ≡ string_bytes text.old ++ interval_bar class.now at top bottom) }
{
    write!(
        text,
        "<path class=\"span{class}\" d=\"M{at} {top}V{bottom}\"/>"
    )
}

/// Appends the dot of a share.
#[tactic(auto, unfolding(crate::specs::Front::share_dot))]
fn push_share_dot(
    text: &mut String,
    class: &str,
    size: u64,
    at: u64,
    middle: u64,
) -> Result<(), AllocError>
    ensures { OnOk result (string_bytes text.new ≡ string_bytes text.old ++ share_dot class.now size at middle) }
{
    write!(
        text,
        "<path class=\"point r{size}{class}\" d=\"M{at} {middle}h0\"/>"
    )
}

/// The size of a dot, from 1 to 5, by a number of messages and the greatest of them.
#[tactic(auto, unfolding(crate::specs::Front::size_of))]
fn size_of(messages: Option<u128>, most: u128) -> u64
    ensures { result ≡ size_of messages most }
{
    let told = messages.unwrap_or(0).min(most);
    let fifth = most / 5 + 1;
    (told / fifth).min(4) as u64 + 1
}

/// Appends the line through the front.
#[tactic(auto, unfolding(crate::specs::Front::joined))]
pub(crate) fn push_joined(
    text: &mut String,
    points: &[FrontPoint],
    reach: &Reach,
) -> Result<(), AllocError>
    ensures { OnOk result (string_bytes text.new ≡ string_bytes text.old ++ joined reach.now points.now) }
{
    push_markup(text, "<path class=\"joined\" d=\"")?;
    push_joints(text, points, reach)?;
    push_markup(text, "\"/>")
}

/// Appends its joints.
fn push_joints(text: &mut String, points: &[FrontPoint], reach: &Reach) -> Result<(), AllocError>
    ensures { OnOk result (string_bytes text.new ≡ string_bytes text.old ++ flat_map (joint_at reach.now points.now) (range_with_len 0 (length points.now))) }
{
    for place in 0..points.len() {
        push_joint_at(text, points, reach, place)?;
    }
    Ok(())
}

/// Appends the joint at a place.
#[tactic(auto, unfolding(crate::specs::Front::joint_at))]
fn push_joint_at(
    text: &mut String,
    points: &[FrontPoint],
    reach: &Reach,
    place: usize,
) -> Result<(), AllocError>
    ensures { OnOk result (string_bytes text.new ≡ string_bytes text.old ++ joint_at reach.now points.now place) }
{
    match points.get(place) {
        Some(point) => push_joint(text, place, point, reach),
        None => Ok(()),
    }
}

/// Appends a joint: the first begins the line.
#[tactic(auto, unfolding(crate::specs::Front::joint))]
fn push_joint(
    text: &mut String,
    place: usize,
    point: &FrontPoint,
    reach: &Reach,
) -> Result<(), AllocError>
    ensures { OnOk result (string_bytes text.new ≡ string_bytes text.old ++ joint reach.now place point.now) }
{
    let at = point.across.min(reach.across);
    let height = reach.up.saturating_sub(point.share);
    if place == 0 {
        push_start(text, at, height)
    } else {
        push_step(text, at, height)
    }
}

/// Appends the numbers of the settings on the front, beside their dots.
pub(crate) fn push_numbers(
    text: &mut String,
    points: &[FrontPoint],
    reach: &Reach,
) -> Result<(), AllocError>
    ensures { OnOk result (string_bytes text.new ≡ string_bytes text.old ++ flat_map (number_mark reach.now) points.now) }
{
    for point in points {
        push_number_mark(text, point, reach)?;
    }
    Ok(())
}

/// Appends the number of a setting on the front.
#[tactic(auto, unfolding(crate::specs::Front::number_mark))]
fn push_number_mark(text: &mut String, point: &FrontPoint, reach: &Reach) -> Result<(), AllocError>
    ensures { OnOk result (string_bytes text.new ≡ string_bytes text.old ++ number_mark reach.now point.now) }
{
    push_markup(
        text,
        "<span class=\"number\" aria-hidden=\"true\" style=\"left:",
    )?;
    push_place(text, point.across, reach.across)?;
    push_markup(text, ";bottom:")?;
    push_place(text, point.share, reach.up)?;
    push_markup(text, "\">")?;
    push_number(text, point.place)?;
    push_markup(text, "</span>")
}
