//! Paths of groups, in words.

use std::alloc::AllocError;

/// Adds the true path of these names.
pub fn add_path(text: &mut String, names: &[machine::text::Text]) -> Result<(), AllocError> {
    for name in names {
        text.push('/')?;
        text.push_str(name.as_str())?;
    }
    Ok(())
}
