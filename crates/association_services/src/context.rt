//! Presentation contexts, as messages name them (PS3.8, section 7.1.1.13).

ghost use Rattle.std.specs.Prelude.{◌≡◌};
ghost use Rattle.std.specs.Option.{option_map};
ghost use Rattle.association_services.specs.Context.{context_in, is_other_class, syntax_of};

use data_set::Syntax;
use octets::Octets;
use pdu::Context;

/// The context with this ID.
pub(crate) fn context_with(contexts: &[Context], id: u8) -> Option<&Context>
    ensures { option_map (λ c. c.now) result ≡ context_in contexts.now id }
{
    contexts.iter().find(|context| context.id == id)
}

/// Whether a class is there and is not the context's abstract syntax.
pub(crate) fn is_of_other_class(context: &Context, class: &Option<Octets>) -> bool
    ensures { result ≡ is_other_class context.now class.now }
{
    match class {
        None => false,
        Some(class) => class.as_slice() != context.abstract_syntax.as_slice(),
    }
}

/// The transfer syntax of a context.
pub(crate) fn syntax(context: &Context) -> Syntax
    ensures { result ≡ syntax_of context.now }
{
    if context.explicit {
        return Syntax::Explicit;
    }
    Syntax::Implicit
}
