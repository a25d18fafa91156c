//! The files by name, and which groups have them.

ghost use Rattle.std.specs.Prelude.{◌≡◌};
ghost use Rattle.machine.specs.Control.{file_named, has_file};

use machine::control::ControlFile;
use machine::id::GroupId;
use machine::record::Guard;

/// The control file of this name.
pub fn file_named(name: &str) -> Option<ControlFile>
    ensures { result ≡ file_named name.now }
{
    match name {
        "memory.current" => Some(ControlFile::Current),
        "memory.max" => Some(ControlFile::Max),
        "memory.min" => Some(ControlFile::Guard(Guard::Min)),
        "memory.low" => Some(ControlFile::Guard(Guard::Low)),
        "memory.oom.group" => Some(ControlFile::OomGroup),
        "memory.events" => Some(ControlFile::Events),
        "memory.events.local" => Some(ControlFile::EventsLocal),
        "memory.stat" => Some(ControlFile::Stat),
        "memory.reclaim" => Some(ControlFile::Reclaim),
        _ => None,
    }
}

/// Whether the group has the file. The root has only `memory.reclaim`.
pub fn has_file(group: GroupId, file: ControlFile) -> bool
    ensures { result ≡ has_file group.0 file }
{
    match file {
        ControlFile::Current | ControlFile::Max | ControlFile::Guard(_) => group.0 != 0,
        ControlFile::Events | ControlFile::EventsLocal | ControlFile::Stat => group.0 != 0,
        ControlFile::OomGroup => group.0 != 0,
        ControlFile::Reclaim => true,
    }
}
