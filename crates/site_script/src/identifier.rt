//! The identifiers of the queries and selections that a script asks for (PS3.4, sections C.4.1.1.3
//! and C.4.3.1.3).

ghost use Rattle.std.specs.Prelude.{◌≡◌, IfOk};
ghost use Rattle.octets.specs.Gives.{Gives};
ghost use Rattle.archive_model.specs.Fault.{is_memory};
ghost use Rattle.archive_model.specs.Query.{query_of};
ghost use Rattle.data_set.specs.declared.syntax.Syntax.TheVariants.{Implicit};
ghost use Rattle.data_set.specs.Written.{IsSet};
ghost use Rattle.site_script.specs.Sets.{identifier as identifier_of, key_element as key_element_of};

use crate::command::FindLine;
use crate::key::Key;
use archive_query::{Query, QueryFault};
use data_set::{DataSet, Element, Syntax};
use std::alloc::{AllocError, Global};

fn key_element(alloc: Global, key: &Key) -> Result<Element, AllocError>
    ensures { IfOk result (λ element. element ≡ key_element_of key.now) }
{
    Ok(Element::leaf(key.tag, None, key.value.copy(alloc)?))
}

/// The elements of the keys.
#[tactic(auto, unfolding(crate::specs::Sets::identifier))]
pub fn identifier(alloc: Global, keys: &[Key]) -> Result<Vec<Element>, AllocError>
    ensures { IfOk result (λ elements. elements.items ≡ identifier_of keys.now) }
{
    let mut elements = Vec::with_capacity(alloc, keys.len())?;
    for key in keys {
        elements.push(key_element(alloc, key)?)?;
    }
    Ok(elements)
}

/// The query of a `find` line, or why it asks none.
pub fn query_in(alloc: Global, line: &FindLine) -> Result<Query, QueryFault>
    requires { IsSet Implicit (identifier_of line.now.keys) }
    ensures { Gives is_memory (λ query. query) result (query_of (identifier_of line.now.keys)) }
{
    let elements = identifier(alloc, line.keys.as_slice())?;
    let set = DataSet::of(Syntax::Implicit, elements);
    Query::read(alloc, &set)
}
