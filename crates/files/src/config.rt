//! Which lists of files are valid, and how many blocks a machine needs.

ghost use Rattle.std.specs.Prelude.{◌≡◌, ◌+◌, ◌≤◌, nat_le, sum, Some, None, if◌then◌else◌};
ghost use Rattle.std.specs.List.{list_all, list_any};
ghost use Rattle.std.specs.Str.{bytes_eq};
ghost use Rattle.machine.specs.declared.config.File.{File as FileOf};
ghost use Rattle.machine.specs.State.{sizes_of, blocks_of, is_config, is_file, are_apart, are_files};

use machine::config::{Config, File};
use machine::limit::{MOST_BLOCKS, MOST_FILES};
use text_forms::name::is_name;

fn is_file(file: &File) -> bool
    ensures { result ≡ is_file file.now }
{
    is_name(file.name.as_str()) && 1 <= file.pages
}

fn all_are_files(files: &[File]) -> bool
    ensures { result ≡ list_all is_file files.now }
{
    files.iter().all(|file| is_file(file))
}

fn has_name(files: &[File], name: &str) -> bool
    ensures { result ≡ list_any (λ (file : FileOf). bytes_eq file.name name.now) files.now }
{
    files.iter().any(|file| file.name.as_str() == name)
}

fn are_apart(files: &[File]) -> bool
    ensures { result ≡ are_apart files.now }
{
    match files.split_first() {
        Some((file, others)) => !has_name(others, file.name.as_str()) && are_apart(others),
        None => true,
    }
}

fn are_files(files: &[File]) -> bool
    ensures { result ≡ are_files files.now }
{
    files.len() <= MOST_FILES && all_are_files(files) && are_apart(files)
}

/// The number of blocks in use after adding one for each page of these files. `None` if that is more than
/// allowed.
pub fn blocks_behind(used: u32, files: &[File]) -> Option<u32>
    requires { used ≤ MOST_BLOCKS }
    ensures { let all = used + sum (sizes_of files.now) in result ≡ (if nat_le all MOST_BLOCKS then Some all else None) }
{
    let mut all = used;
    for file in files {
        if file.pages > MOST_BLOCKS - all {
            return None;
        }
        all += file.pages;
    }
    Some(all)
}

/// How many blocks the device must have: the swap blocks, and one for each page of a file. `None` if the
/// configuration is out of its limits.
pub fn blocks_for(config: &Config) -> Option<u32>
    ensures { result ≡ (if is_config config.now then Some (blocks_of config.now) else None) }
{
    let files = config.files.as_slice();
    if !config.is_sized() || !are_files(files) {
        return None;
    }
    blocks_behind(config.swap, files)
}
