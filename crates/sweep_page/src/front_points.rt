//! The settings on the front, by their times.
ghost use Rattle.std.specs.Prelude.{◌≡◌, ◌++◌, IfOk, OnOk};
ghost use Rattle.sweep_page.specs.Points.{across_of, is_marked, front_settings, front_points, front_point, places_of, point_at, points_at};

use base::Memory;
use figures::SettingSummary;
use std::alloc::Global;
use sweep_cells::{setting_at, share_of, thousandths};

/// A setting on the front: the one that is less far across is the less.
#[derive(Clone, Copy, Debug, PartialEq, Eq, PartialOrd, Ord)]
pub struct FrontPoint {
    /// Its median time until a crash was confirmed, in ticks; its messages per member and 1,000 ticks,
    /// in hundredths, where no run of the sweep has a crash.
    pub across: u64,
    /// Its place among the settings.
    pub place: usize,
    /// The share of its runs with a false death, in thousandths.
    pub share: u64,
    /// The ends of the 95 % interval of that, in thousandths.
    pub low: u64,
    pub high: u64,
    /// How many runs those are, and how many there are.
    pub runs_with: u64,
    pub runs: u64,
}

/// The settings on the front that stand somewhere across, the least far first; those as far as each
/// other stand in the order of their places. `crashed` is whether a run of the sweep has a crash.
#[tactic(auto, unfolding(crate::specs::Points::front_points))]
pub(crate) fn front_points(
    alloc: Global,
    settings: &[SettingSummary],
    front: &[bool],
    crashed: bool,
) -> Result<Vec<FrontPoint>, Memory>
    ensures { IfOk result (λ points. points.items ≡ front_points crashed settings.now front.now) }
{
    let mut points = unordered(alloc, settings, front, crashed)?;
    points.sort()?;
    Ok(points)
}

/// The same in the order of their places.
fn unordered(
    alloc: Global,
    settings: &[SettingSummary],
    front: &[bool],
    crashed: bool,
) -> Result<Vec<FrontPoint>, Memory>
    ensures { IfOk result (λ points. points.items ≡ front_settings crashed settings.now front.now) }
{
    let mut points = Vec::new(alloc);
    for place in 0..settings.len() {
        push_point(&mut points, settings, front, crashed, place)?;
    }
    Ok(points)
}

/// Adds the setting at a place, where it is on the front and stands somewhere across.
fn push_point(
    points: &mut Vec<FrontPoint>,
    settings: &[SettingSummary],
    front: &[bool],
    crashed: bool,
    place: usize,
) -> Result<(), Memory>
    ensures { OnOk result (points.new.items ≡ points.old.items ++ points_at crashed settings.now front.now place) }
{
    if let Some(point) = point_at(settings, front, crashed, place) {
        points.push(point)?;
    }
    Ok(())
}

/// Where these stand among all settings.
pub(crate) fn places_of(alloc: Global, points: &[FrontPoint]) -> Result<Vec<usize>, Memory>
    ensures { IfOk result (λ places. places.items ≡ places_of points.now) }
{
    let mut places = Vec::new(alloc);
    for point in points {
        places.push(point.place)?;
    }
    Ok(places)
}

/// Whether the setting at a place is on the front.
pub(crate) fn is_marked(front: &[bool], place: usize) -> bool
    ensures { result ≡ is_marked front.now place }
{
    match front.get(place) {
        Some(marked) => *marked,
        None => false,
    }
}

/// The setting at a place, where it is on the front and stands somewhere across.
fn point_at(
    settings: &[SettingSummary],
    front: &[bool],
    crashed: bool,
    place: usize,
) -> Option<FrontPoint>
    ensures { result ≡ point_at crashed settings.now front.now place }
{
    if !is_marked(front, place) {
        return None;
    }
    match setting_at(settings, place) {
        Some(setting) => front_point(crashed, place, &setting),
        None => None,
    }
}

/// Where a setting stands across the front: by its median time, or by its messages where no run has a
/// crash.
#[tactic(auto, unfolding(crate::specs::Points::across_of))]
pub(crate) fn across_of(crashed: bool, setting: &SettingSummary) -> Option<u64>
    ensures { result ≡ across_of crashed setting.now }
{
    if crashed {
        return setting.confirm_p50;
    }
    match setting.messages {
        Some(messages) => Some(messages.min(u128::from(u64::MAX)) as u64),
        None => None,
    }
}

/// A setting as it stands on the front, where it stands somewhere across.
#[tactic(auto, unfolding(crate::specs::Points::front_point))]
fn front_point(crashed: bool, place: usize, setting: &SettingSummary) -> Option<FrontPoint>
    ensures { result ≡ front_point crashed place setting.now }
{
    let share = share_of(setting);
    let low = thousandths(setting.share_low);
    let high = thousandths(setting.share_high);
    match across_of(crashed, setting) {
        Some(across) => Some(FrontPoint {
            across,
            place,
            share,
            low,
            high,
            runs_with: setting.runs_with,
            runs: setting.runs,
        }),
        None => None,
    }
}
