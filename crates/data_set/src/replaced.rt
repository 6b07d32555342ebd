//! One value put into a data set, as a correction does.

ghost use Rattle.std.specs.Prelude.{◌≡◌, ◌++◌, ◌≤◌, length, OnOk, IfOk, Some};
ghost use Rattle.data_set.specs.Converted.{converted, below, above, with_value};
ghost use Rattle.data_set.specs.Corrections.{correction_vr_of};

use crate::conversion::{put_one, vr_for};
use crate::element::Element;
use crate::set::DataSet;
use crate::syntax::Syntax;
use crate::values::padded_of;
use std::alloc::{AllocError, Global};

/// Puts the elements of lesser tags at the end.
fn put_below(
    alloc: Global,
    syntax: Syntax,
    out: &mut Vec<Element>,
    elements: &[Element],
    tag: u32,
) -> Result<(), AllocError>
    ensures { OnOk result (out.new.items ≡
        out.old.items ++ converted syntax (below tag elements.now)) }
{
    for element in elements {
        if element.tag() < tag {
            put_one(alloc, syntax, out, element)?;
        }
    }
    Ok(())
}

/// Puts the elements of greater tags at the end.
fn put_above(
    alloc: Global,
    syntax: Syntax,
    out: &mut Vec<Element>,
    elements: &[Element],
    tag: u32,
) -> Result<(), AllocError>
    ensures { OnOk result (out.new.items ≡
        out.old.items ++ converted syntax (above tag elements.now)) }
{
    for element in elements {
        if tag < element.tag() {
            put_one(alloc, syntax, out, element)?;
        }
    }
    Ok(())
}

impl DataSet {
    /// The same data set with this value, padded to even length, in the place of its tag. Group
    /// lengths are left out at every depth, since they would no longer be right.
    pub fn replaced(
        &self,
        alloc: Global,
        tag: u32,
        vr: [u8; 2],
        value: &[u8],
    ) -> Result<DataSet, AllocError>
        requires corrected { correction_vr_of tag ≡ Some vr }
        requires short { length value.now ≤ 64 }
        ensures syntax { IfOk result (λ d. d.syntax ≡ self.now.syntax) }
        ensures elements { IfOk result (λ d. d.elements ≡
            with_value self.now.syntax tag vr value.now self.now.elements) }
    {
        let syntax = self.syntax();
        let new = padded_of(alloc, vr, value)?;
        let mut elements = Vec::new(alloc);
        put_below(alloc, syntax, &mut elements, self.elements(), tag)?;
        elements.push(Element::leaf(tag, vr_for(syntax, Some(vr)), new))?;
        put_above(alloc, syntax, &mut elements, self.elements(), tag)?;
        Ok(DataSet::of(syntax, elements))
    }
}
