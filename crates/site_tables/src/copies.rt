//! Second owners of contents, which share all that these hold.

ghost use Rattle.std.specs.Prelude.{◌≡◌, IfOk, map};

use records::RecordedContent;
use std::alloc::{AllocError, Global};

/// Second owners of some contents.
pub(crate) fn copies_of(
    alloc: Global,
    contents: &[&RecordedContent],
) -> Result<Vec<RecordedContent>, AllocError>
    ensures { IfOk result (λ copies. copies.items ≡ map (λ c. c.now) contents.now) }
{
    let mut copies = Vec::with_capacity(alloc, contents.len())?;
    for content in contents {
        copies.push(content.copy()?)?;
    }
    Ok(copies)
}

pub(crate) fn references<'a>(
    alloc: Global,
    contents: &'a [RecordedContent],
) -> Result<Vec<&'a RecordedContent>, AllocError>
    ensures { IfOk result (λ found. map (λ c. c.now) found.items ≡ contents.now) }
{
    let mut found = Vec::with_capacity(alloc, contents.len())?;
    for content in contents {
        found.push(content)?;
    }
    Ok(found)
}
