//! The keys of a query, as TAG=VALUE words give them.

ghost use Rattle.std.specs.Prelude.{◌≡◌, ◌∷◌, [], IfOk};
ghost use Rattle.std.specs.Option.{option_map};
ghost use Rattle.site_script.specs.Keys.{is_askable as is_askable_tag, key_in as key_in_word, put_key};
ghost use Rattle.site_script.specs.Keys.{keys_in as keys_in_words, Puts};
ghost use Rattle.dictionary.specs.declared.elements.TheConstants.{QUERY_RETRIEVE_LEVEL};

use crate::tag::tag_in;
use data_set::{has_reserved_group, is_item_or_end, is_sequence_tag};
use dictionary::QUERY_RETRIEVE_LEVEL;
use octets::Octets;
use std::alloc::{AllocError, Global};

/// A key: the tag of an element, and its value.
#[derive(Debug, Drop)]
pub struct Key {
    pub tag: u32,
    pub value: Octets,
}

/// Whether keys are asked by a tag: not by that of the level, of a sequence, or of a group that no
/// data set has.
#[tactic(auto, unfolding(crate::specs::Keys::is_askable))]
fn is_askable(tag: u32) -> bool
    ensures { result ≡ is_askable_tag tag }
{
    let is_level = tag == QUERY_RETRIEVE_LEVEL;
    !(is_level || is_sequence_tag(tag) || has_reserved_group(tag) || is_item_or_end(tag))
}

/// The key that a word gives.
fn key_in(alloc: Global, word: &[u8]) -> Result<Option<Key>, AllocError>
    ensures { IfOk result (λ key. key ≡ key_in_word word.now) }
{
    match word {
        [a, b, c, d, e, f, g, h, sign, value @ ..] => {
            if *sign != b'=' {
                return Ok(None);
            }
            match tag_in(&[*a, *b, *c, *d, *e, *f, *g, *h]) {
                Some(tag) if is_askable(tag) => Ok(Some(Key {
                    tag,
                    value: Octets::from_slice(alloc, value)?,
                })),
                _ => Ok(None),
            }
        }
        _ => Ok(None),
    }
}

/// Puts a key into its place among keys that ascend by tag. It says whether it did: its tag may be
/// there.
fn put(keys: &mut Vec<Key>, key: Key) -> Result<bool, AllocError>
    ensures { IfOk result (λ done. Puts (put_key key keys.old.items) done keys.new.items) }
{
    for i in 0..keys.len() {
        if key.tag == keys[i].tag {
            return Ok(false);
        }
        if key.tag < keys[i].tag {
            keys.insert(i, key)?;
            return Ok(true);
        }
    }
    keys.push(key)?;
    Ok(true)
}

/// The key of the level, and no other.
fn level_alone(alloc: Global, level: &Octets) -> Result<Vec<Key>, AllocError>
    ensures { IfOk result (λ keys. keys.items
        ≡ record { tag = QUERY_RETRIEVE_LEVEL; value = level.now } ∷ []) }
{
    let mut keys = Vec::new(alloc);
    keys.push(Key {
        tag: QUERY_RETRIEVE_LEVEL,
        value: level.copy(alloc)?,
    })?;
    Ok(keys)
}

/// The keys of a query, its level and those of some words, ascending by tag, or `None` where a
/// word is no key or a tag is there twice.
pub fn keys_in(
    alloc: Global,
    level: &Octets,
    words: &[Octets],
) -> Result<Option<Vec<Key>>, AllocError>
    ensures { IfOk result (λ keys. option_map (λ k. k.items) keys
        ≡ keys_in_words level.now words.now) }
{
    let mut keys = level_alone(alloc, level)?;
    for word in words {
        let Some(key) = key_in(alloc, word.as_slice())? else {
            return Ok(None);
        };
        if !put(&mut keys, key)? {
            return Ok(None);
        }
    }
    Ok(Some(keys))
}
