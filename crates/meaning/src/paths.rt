//! Which paths decide nothing, because a later path names the same two groups.
ghost use Rattle.std.specs.Prelude.{◌≡◌, ◌<◌, length};
ghost use Rattle.scenario.specs.Setup.{leads};
ghost use Rattle.std.specs.List.{list_any};
ghost use Rattle.meaning.specs.Groups.{is_hidden};

use scenario::Path;

/// Whether a path after the one at this place names the same two groups, so that the one at this
/// place decides nothing.
pub fn is_hidden(paths: &[Path], place: usize, path: &Path) -> bool
    requires { place < length paths.now }
    ensures { result ≡ is_hidden paths.now place path.now }
{
    is_led(&paths[place + 1..], path)
}

/// Whether one of these paths names the same two groups.
fn is_led(paths: &[Path], path: &Path) -> bool
    ensures { result ≡ list_any (leads path.now.from path.now.to) paths.now }
{
    paths
        .iter()
        .any(|other| other.from == path.from && other.to == path.to)
}
