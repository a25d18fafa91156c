//! Marks after the lines of tasks.

ghost use Rattle.std.specs.Prelude.{◌+◌, ◌≤◌};
ghost use Rattle.scenario_lines.specs.Marks.{WriteRaises};

/// A law: wherever a line `write SIZE` is cut, it raises the mark by the number of pages that are left of it. The
/// next line with a size therefore begins at the first page that was not written.
pub fn write_raises(mark: u32, pages: u32)
    requires { mark + pages ≤ 1024 }
    ensures { WriteRaises mark pages }
{}
