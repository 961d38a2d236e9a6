//! Paths, corner by corner.
ghost use Rattle.std.specs.Prelude.{◌≡◌, ◌++◌, OnOk};
ghost use Rattle.std.specs.String.{string_bytes};
ghost use Rattle.sweep_cells.specs.Paths.{path_start, path_step};

use std::alloc::AllocError;

/// Begins a path at a corner, across and down from the top.
#[tactic(auto, unfolding(crate::specs::Paths::path_start))]
pub fn push_start(text: &mut String, at: u64, height: u64) -> Result<(), AllocError>
    ensures { OnOk result (string_bytes text.new ≡ string_bytes text.old ++ path_start at height) }
{
    write!(text, "M{at} {height}")
}

/// Goes on straight to another.
#[tactic(auto, unfolding(crate::specs::Paths::path_step))]
pub fn push_step(text: &mut String, at: u64, height: u64) -> Result<(), AllocError>
    ensures { OnOk result (string_bytes text.new ≡ string_bytes text.old ++ path_step at height) }
{
    write!(text, "L{at} {height}")
}
