//! Levels of groups, by their paths.

/// How many levels a path is below that of a group: 0 if it is the same. `None` if it is not below it.
pub fn levels_below(path: &str, group: &str) -> Option<usize> {
    let group = if group == "/" { "" } else { group };
    let rest = path.strip_prefix(group)?;
    if rest.is_empty() || rest == "/" {
        return Some(0);
    }
    if !rest.starts_with('/') {
        return None;
    }
    let mut levels = 0usize;
    for byte in rest.bytes() {
        if byte == b'/' {
            levels = levels.saturating_add(1);
        }
    }
    Some(levels)
}
