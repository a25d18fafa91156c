//! The parts of a group's path.

ghost use Rattle.std.specs.Prelude.{◌≡◌};
ghost use Rattle.machine.specs.Names.{parent_path};

/// The path without its last slash and name, or `/` if nothing else is left.
pub(crate) fn parent_path(path: &str) -> &str
    ensures { result.now ≡ parent_path path.now }
{
    match path.rfind('/') {
        Some(last_slash) if last_slash > 0 => &path[..last_slash],
        _ => "/",
    }
}
