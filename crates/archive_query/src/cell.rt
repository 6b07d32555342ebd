//! How a value stands in a row (PS3.5, section 6.2).

ghost use Rattle.std.specs.Prelude.{◌≡◌, IfOk};
ghost use Rattle.archive_model.specs.Cell.{longest, fitting as fitting_in, cell as cell_in};

use data_set::{Element, padded_of};
use dictionary::vr_of;
use std::alloc::{AllocError, Global};

/// The longest value of an element whose length has two bytes, and that is of even length.
const LONGEST: usize = 65_534;

/// A longer value is answered empty (docs/DECISIONS.md, "Long values").
fn fitting(value: &[u8]) -> &[u8]
    ensures { result.now ≡ fitting_in value.now }
{
    if value.len() <= LONGEST { value } else { &[] }
}

/// The element of a tag that holds a value.
#[tactic(auto, unfolding(archive_model::specs::Cell::cell))]
pub(crate) fn cell(alloc: Global, tag: u32, value: &[u8]) -> Result<Element, AllocError>
    ensures { IfOk result (λ element. element ≡ cell_in tag value.now) }
{
    let vr = vr_of(tag);
    let bytes = padded_of(alloc, vr, fitting(value))?;
    Ok(Element::leaf(tag, Some(vr), bytes))
}
