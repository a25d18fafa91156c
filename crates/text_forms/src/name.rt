//! Names of groups and files, and paths.

ghost use Rattle.std.specs.Prelude.{◌≡◌, ◌==◌};
ghost use Rattle.std.specs.List.{list_all, slice_split};
ghost use Rattle.machine.specs.Names.{is_name_byte, is_name, is_path};

fn is_name_byte(byte: u8) -> bool
    ensures { result ≡ is_name_byte byte }
{
    byte.is_ascii_alphanumeric() || byte == b'.' || byte == b'_' || byte == b'-'
}

fn all_name_bytes(word: &str) -> bool
    ensures { result ≡ list_all is_name_byte word.now }
{
    word.bytes().all(|byte| is_name_byte(byte))
}

/// Whether a word is a name of a group or a file: 1 to 32 ASCII letters, digits, `.`, `_` and `-`,
/// and neither `.` nor `..`.
pub fn is_name(word: &str) -> bool
    ensures { result ≡ is_name word.now }
{
    if word.is_empty() || word.len() > 32 {
        return false;
    }
    if word == "." || word == ".." {
        return false;
    }
    all_name_bytes(word)
}

fn all_names(names: &str) -> bool
    ensures { result ≡ list_all is_name (slice_split (λ c. c == 47) names.now) }
{
    names.split('/').all(|name| is_name(name))
}

/// Whether a word is a group's path: `/` for the root, or the names from the root down, each after
/// a slash.
pub fn is_path(word: &str) -> bool
    ensures { result ≡ is_path word.now }
{
    match word.strip_prefix('/') {
        None => false,
        Some(names) => names.is_empty() || all_names(names),
    }
}
