//! On which presentation context a content goes out (PS3.4, section C.4.3; PS3.7, section D.3.3.4).

ghost use Rattle.std.specs.Prelude.{◌≡◌};
ghost use Rattle.association_services.specs.Get.{takes_class, lesser as lesser_of, least_of, least_id, own_or};
ghost use Rattle.association_services.specs.Get.{converted_on, way_of};

use archive_model::Form;
use data_set::Syntax;
use pdu::Context;

/// The context of a sub-operation, and how its data set is sent there.
#[derive(Clone, Copy)]
pub struct Way {
    /// The ID of the context, which is of the instance's class.
    pub context: u8,
    /// As it is, or converted to the context's transfer syntax.
    pub form: Form,
}

/// Whether a context takes data sets of this class, in this syntax, and the requestor has the SCP
/// role on it.
fn is_for(context: &Context, class: &[u8], explicit: bool) -> bool
    ensures { result ≡ takes_class class.now explicit context.now }
{
    context.abstract_syntax.as_slice() == class && context.scp && context.explicit == explicit
}

fn lesser(id: u8, other: Option<u8>) -> u8
    ensures { result ≡ lesser_of id other }
{
    match other {
        None => id,
        Some(other) => {
            if other < id {
                return other;
            }
            id
        }
    }
}

/// The least ID of some contexts, with one more before them.
fn least_with(context: &Context, class: &[u8], explicit: bool, found: Option<u8>) -> Option<u8>
    ensures { result ≡ least_of class.now explicit context.now found }
{
    if is_for(context, class, explicit) {
        return Some(lesser(context.id, found));
    }
    found
}

/// The least ID of the contexts that take such data sets.
fn least(contexts: &[Context], class: &[u8], explicit: bool) -> Option<u8>
    ensures { result ≡ least_id class.now explicit contexts.now }
{
    let mut found = None;
    let mut i = contexts.len();
    while i > 0 {
        i -= 1;
        found = least_with(&contexts[i], class, explicit, found);
    }
    found
}

fn converted(id: Option<u8>) -> Option<Way>
    ensures { result ≡ converted_on id }
{
    match id {
        None => None,
        Some(context) => Some(Way {
            context,
            form: Form::Converted,
        }),
    }
}

fn own(id: Option<u8>, other: Option<Way>) -> Option<Way>
    ensures { result ≡ own_or id other }
{
    match id {
        None => other,
        Some(context) => Some(Way {
            context,
            form: Form::Own,
        }),
    }
}

/// On which context a content goes out: the least one of its class and syntax in the requestor's
/// SCP role; else, where it is explicit, the least implicit one, converted.
pub(crate) fn way_for(contexts: &[Context], class: &[u8], syntax: Syntax) -> Option<Way>
    ensures { result ≡ way_of contexts.now class.now syntax }
{
    let implicit = least(contexts, class, false);
    match syntax {
        Syntax::Implicit => own(implicit, None),
        Syntax::Explicit => own(least(contexts, class, true), converted(implicit)),
    }
}
