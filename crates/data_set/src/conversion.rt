//! Copies of elements without group lengths, in the implicit syntax or as they are.
//!
//! Elements and items are copied by loops, and the functions of the cycle go one level down for
//! each sequence. A value is copied once.

ghost use Rattle.std.specs.Prelude.{◌≡◌, List, ◌++◌, ◌∷◌, [], OnOk, IfOk};
ghost use Rattle.data_set.specs.declared.syntax.Syntax.TheVariants.{Implicit};
ghost use Rattle.data_set.specs.Converted.{vr_in, converted, converted_tree, converted_items_of};
ghost use Rattle.data_set.specs.Seen.{lists_of};

use crate::element::{Content, Element};
use crate::set::DataSet;
use crate::syntax::Syntax;
use crate::tags::names_group_length;
use std::alloc::{AllocError, Global};

/// What a syntax spells of a value representation: the implicit one nothing.
pub fn vr_for(syntax: Syntax, vr: Option<[u8; 2]>) -> Option<[u8; 2]>
    ensures { result ≡ vr_in syntax vr }
{
    match syntax {
        Syntax::Implicit => None,
        Syntax::Explicit => vr,
    }
}

/// One element, for a data set of this syntax.
#[cycle(converting)]
fn converted_element(
    alloc: Global,
    syntax: Syntax,
    element: &Element,
) -> Result<Element, AllocError>
    ensures { IfOk result (λ e. e ≡ converted_tree syntax element.now) }
{
    let vr = vr_for(syntax, element.vr);
    match &element.content {
        Content::Bytes(value) => Ok(Element::leaf(element.tag, vr, value.copy(alloc)?)),
        Content::Items(items) => {
            let items = converted_items(alloc, syntax, items.as_slice())?;
            Ok(Element::sequence(element.tag, vr, items))
        }
    }
}

/// Items, for a data set of this syntax.
#[cycle(converting)]
fn converted_items(
    alloc: Global,
    syntax: Syntax,
    items: &[Vec<Element>],
) -> Result<Vec<Vec<Element>>, AllocError>
    ensures { IfOk result (λ v.
        lists_of v.items ≡ converted_items_of syntax (lists_of items.now)) }
{
    let mut out = Vec::with_capacity(alloc, items.len())?;
    for item in items {
        let mut elements = Vec::with_capacity(alloc, item.len())?;
        put_converted(alloc, syntax, &mut elements, item.as_slice())?;
        out.push(elements)?;
    }
    Ok(out)
}

/// Puts elements at the end, without group lengths.
#[cycle(converting)]
fn put_converted(
    alloc: Global,
    syntax: Syntax,
    out: &mut Vec<Element>,
    elements: &[Element],
) -> Result<(), AllocError>
    ensures { OnOk result (out.new.items ≡ out.old.items ++ converted syntax elements.now) }
{
    for element in elements {
        put_one(alloc, syntax, out, element)?;
    }
    Ok(())
}

/// Puts an element at the end, unless it is a group length.
#[cycle(converting)]
pub fn put_one(
    alloc: Global,
    syntax: Syntax,
    out: &mut Vec<Element>,
    element: &Element,
) -> Result<(), AllocError>
    ensures { OnOk result (out.new.items ≡
        out.old.items ++ converted syntax (element.now ∷ [])) }
{
    if names_group_length(element.tag()) {
        return Ok(());
    }
    out.push(converted_element(alloc, syntax, element)?)?;
    Ok(())
}

impl DataSet {
    /// The same elements in the implicit syntax: without value representations and, at every
    /// depth, without group lengths, which would no longer be right (PS3.5, section 7.2).
    pub fn to_implicit(&self, alloc: Global) -> Result<DataSet, AllocError>
        ensures syntax { IfOk result (λ d. d.syntax ≡ Implicit) }
        ensures elements { IfOk result (λ d. d.elements ≡ converted Implicit self.now.elements) }
    {
        let mut elements = Vec::with_capacity(alloc, self.elements().len())?;
        put_converted(alloc, Syntax::Implicit, &mut elements, self.elements())?;
        Ok(DataSet::of(Syntax::Implicit, elements))
    }
}
