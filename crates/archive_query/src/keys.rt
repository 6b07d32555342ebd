//! The keys of a query, made ready to be matched.

ghost use Rattle.std.specs.Prelude.{◌≡◌, IfOk};
ghost use Rattle.archive_query.specs.Found.{value_by};
ghost use Rattle.archive_model.specs.Rows.{is_key_match_with};

use crate::fixes::Fixes;
use archive_model::{Asked, Query};
use key_matching::PreparedKey;
use records::RecordedContent;
use std::alloc::{AllocError, Global};
use std::marker::Model;

/// A key of a query. Its view is that of the key as it is asked.
#[derive(Drop)]
pub(crate) struct Key<'a> {
    tag: u32,
    prepared: PreparedKey<'a>,
}

impl<'a> Model for Key<'a> {
    ghost use Rattle.archive_model.specs.declared.asked.Asked.{Asked};

    ghost Value = { Asked };

    ghost view = { λ k. record { tag = k.tag; matching = k.prepared.0; key = k.prepared.1 } };
}

fn key_of(alloc: Global, asked: &Asked) -> Result<Key<'_>, AllocError>
    ensures { IfOk result (λ key. key ≡ asked.now) }
{
    Ok(Key {
        tag: asked.tag,
        prepared: PreparedKey::of(alloc, asked.matching, asked.key.as_slice())?,
    })
}

/// The keys of a query, in its order.
pub(crate) fn keys_of(alloc: Global, query: &Query) -> Result<Vec<Key<'_>>, AllocError>
    ensures { IfOk result (λ keys. keys.items ≡ query.now.asked) }
{
    let mut keys = Vec::new(alloc);
    for asked in query.asked.as_slice() {
        keys.push(key_of(alloc, asked)?)?;
    }
    Ok(keys)
}

/// Whether a key matches an attribute of a representative.
pub(crate) fn is_key_match(fixes: &Fixes, content: &RecordedContent, key: &Key) -> bool
    ensures { result ≡ is_key_match_with (value_by fixes.now) content.now key.now }
{
    key.prepared.matches(fixes.attribute(content, key.tag))
}
