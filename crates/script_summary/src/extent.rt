//! How many plain entries each entry of a list stands for, the first and the last of them.
ghost use Rattle.std.specs.Prelude.{◌≡◌, ◌<◌, ◌^◌, length, map, replicate, slice_index_or, slice_set, if◌then◌else◌, nat_lt, IfOk, IfSome, None, Some};
ghost use Rattle.std.specs.List.{range_with_len};
ghost use Rattle.script_summary.specs.Extents.{extent_at, extent_with, later, sooner};

use crate::happening::Happening;
use base::Memory;
use std::alloc::Global;

/// How many plain entries an entry stands for, and which of them are the first and the last: by the moments at which they begin,
/// at one moment by their order.
#[derive(Clone, Copy, Debug)]
pub struct Extent {
    pub count: u64,
    pub first: Happening,
    pub last: Happening,
}

/// Of each of so many entries how many of these it stands for, and which are the first and the last; none where it stands for none.
pub(crate) fn extents(
    alloc: Global,
    count: usize,
    all: &[Happening],
) -> Result<Vec<Option<Extent>>, Memory>
    ensures { IfOk result (λ made. made.items ≡ map (extent_at all.now) (range_with_len 0 count)) }
{
    let mut made = none_yet(alloc, count)?;
    for it in all {
        add(&mut made, it);
    }
    Ok(made)
}

/// None of each of so many.
fn none_yet<T: Copy>(alloc: Global, count: usize) -> Result<Vec<Option<T>>, Memory>
    ensures { IfOk result (λ made. made.items ≡ replicate count None) }
{
    let mut made = Vec::new(alloc);
    for _entry in 0..count {
        made.push(None)?;
    }
    Ok(made)
}

/// Counts one more for its entry, if that is there.
fn add(made: &mut Vec<Option<Extent>>, it: &Happening)
    requires { IfSome (slice_index_or made.old.items it.now.entry None) (λ extent. extent.count < 2 ^ 63) }
    ensures { made.new.items ≡ (if nat_lt it.now.entry (length made.old.items)
        then slice_set made.old.items it.now.entry (Some (extent_with (slice_index_or made.old.items it.now.entry None) it.now))
        else made.old.items) }
{
    if it.entry < made.len() {
        let extent = made[it.entry];
        made[it.entry] = Some(with(extent, it));
    }
}

/// One more behind those so far.
fn with(so_far: Option<Extent>, it: &Happening) -> Extent
    requires { IfSome so_far (λ extent. extent.count < 2 ^ 63) }
    ensures { result ≡ extent_with so_far it.now }
{
    match so_far {
        Some(extent) => Extent {
            count: extent.count + 1,
            first: sooner(extent.first, *it),
            last: later(extent.last, *it),
        },
        None => Extent {
            count: 1,
            first: *it,
            last: *it,
        },
    }
}

/// Of two that stand so the one that begins first.
fn sooner(former: Happening, latter: Happening) -> Happening
    ensures { result ≡ sooner former latter }
{
    if latter.from < former.from {
        latter
    } else {
        former
    }
}

/// Of two that stand so the one that begins last.
fn later(former: Happening, latter: Happening) -> Happening
    ensures { result ≡ later former latter }
{
    if latter.from < former.from {
        former
    } else {
        latter
    }
}
