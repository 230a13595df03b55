//! Names that are almost those that were meant.

use ash_outline::source::Source;
use std::alloc::{AllocError, Global};
use strsim::osa_distance;

/// The declared name that is nearest to one that is not, as a line of help. A short name has none: by two letters most
/// are near to it.
pub fn help_by_nearest(
    alloc: Global,
    source: &Source,
    name: &str,
) -> Result<Option<String>, AllocError> {
    if name.len() < 3 {
        return Ok(None);
    }
    let mut least = 3;
    let mut nearest = "";
    for declaration in &source.declarations {
        let declared = source.token_text(declaration.name);
        let distance = osa_distance(alloc, name, declared)?;
        if distance < least && declared.len() >= 3 {
            least = distance;
            nearest = declared;
        }
    }
    if nearest.is_empty() || nearest == name {
        return Ok(None);
    }
    Ok(Some(format!(in alloc; "is '{nearest}' meant?")?))
}
