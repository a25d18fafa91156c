//! What a run on threads shows of groups at its end.

ghost use Rattle.std.specs.Prelude.{◌≡◌, length, map, option_map, string_bytes, IfOk, OnOk};
ghost use Rattle.std.specs.Io.KnownBytes.{Appends};
ghost use Rattle.shown_groups.specs.Shown.{cat_text, file_text};
ghost use Rattle.shown_groups.specs.Looks.{with_files, current_in, stat_in, events_in, look_files, look_text, looks_text};

use control_files::show_text;
use live::EndLook;
use machine::page_size::PageSize;
use machine::reply::Shown;
use printer::write_bytes;
use std::alloc::{AllocError, Global};
use std::io;
use std::io::Write;

/// Which groups a run shows at its end. It prints their `memory.current`, `memory.stat` and `memory.events`, each
/// after a line with its name.
#[derive(Clone, Copy)]
pub enum Shows<'s> {
    /// All groups that the script makes and that still exist.
    All,
    /// The groups of these paths, in this order. A path without a group is answered as `cat` answers it.
    These(&'s [&'s str]),
}

/// What is printed of a path without a group.
#[derive(Clone, Copy)]
pub enum Missing {
    Skipped,
    Told,
}

/// The group, if it has these files. The root has none of them.
fn with_files(look: Option<EndLook>) -> Option<EndLook>
    ensures { result ≡ with_files look }
{
    match look {
        Some(look) if look.group.number != 0 => Some(look),
        _ => None,
    }
}

fn current_in(look: Option<EndLook>) -> Option<Shown>
    ensures { result ≡ option_map current_in look }
{
    Some(Shown::Pages(look?.group.usage))
}

fn stat_in(look: Option<EndLook>) -> Option<Shown>
    ensures { result ≡ option_map stat_in look }
{
    Some(Shown::Stat(look?.stat))
}

fn events_in(look: Option<EndLook>) -> Option<Shown>
    ensures { result ≡ option_map events_in look }
{
    Some(Shown::Events(look?.events))
}

/// What `cat` answers: the file's text, or that there is no such file.
fn cat_text(
    alloc: Global,
    page_size: PageSize,
    numbers: Option<Shown>,
) -> Result<String, AllocError>
    ensures { IfOk result (λ text. string_bytes text ≡ cat_text page_size.bytes numbers) }
{
    match numbers {
        Some(numbers) => show_text(alloc, page_size, numbers),
        None => String::from_str(alloc, "error ENOENT\n"),
    }
}

/// A line with the name of a file, and then what `cat` answers.
fn file_text(
    alloc: Global,
    page_size: PageSize,
    path: &str,
    name: &str,
    numbers: Option<Shown>,
) -> Result<String, AllocError>
    ensures { IfOk result (λ text. string_bytes text ≡ file_text page_size.bytes path.now name.now numbers) }
{
    let said = cat_text(alloc, page_size, numbers)?;
    format!(in alloc; "{path}/{name}\n{said}")
}

/// Writes that.
fn write_file<O: Write>(
    alloc: Global,
    page_size: PageSize,
    path: &str,
    name: &str,
    numbers: Option<Shown>,
    out: &mut O,
) -> io::Result<()>
    ensures { OnOk result (Appends (O.contents out.old) (O.contents out.new) (file_text page_size.bytes path.now name.now numbers)) }
{
    let text = file_text(alloc, page_size, path, name, numbers)?;
    write_bytes(out, text.as_bytes())
}

/// Writes the three files of a path.
fn write_files<O: Write>(
    alloc: Global,
    page_size: PageSize,
    path: &str,
    look: Option<EndLook>,
    out: &mut O,
) -> io::Result<()>
    ensures { OnOk result (Appends (O.contents out.old) (O.contents out.new) (look_files page_size.bytes path.now look)) }
{
    let look = with_files(look);
    write_file(
        alloc,
        page_size,
        path,
        "memory.current",
        current_in(look),
        out,
    )?;
    write_file(alloc, page_size, path, "memory.stat", stat_in(look), out)?;
    write_file(
        alloc,
        page_size,
        path,
        "memory.events",
        events_in(look),
        out,
    )?;
    Ok(())
}

/// The same, or nothing if no group has the path and such paths are skipped.
fn write_look<O: Write>(
    alloc: Global,
    page_size: PageSize,
    missing: Missing,
    path: &str,
    look: Option<EndLook>,
    out: &mut O,
) -> io::Result<()>
    ensures { OnOk result (Appends (O.contents out.old) (O.contents out.new) (look_text page_size.bytes missing path.now look)) }
{
    match missing {
        Missing::Told => write_files(alloc, page_size, path, look, out),
        Missing::Skipped => match look {
            None => Ok(()),
            Some(found) => write_files(alloc, page_size, path, Some(found), out),
        },
    }
}

/// The same of several paths, one after the other, with pages of this size.
pub fn write_looks<O: Write>(
    alloc: Global,
    page_size: PageSize,
    missing: Missing,
    paths: &[&str],
    looks: &[Option<EndLook>],
    out: &mut O,
) -> io::Result<()>
    requires { length looks.now ≡ length paths.now }
    ensures { OnOk result (Appends (O.contents out.old) (O.contents out.new) (looks_text page_size.bytes missing (map (λ p. p.now) paths.now) looks.now)) }
{
    for at in 0..paths.len() {
        write_look(alloc, page_size, missing, paths[at], looks[at], out)?;
    }
    Ok(())
}
