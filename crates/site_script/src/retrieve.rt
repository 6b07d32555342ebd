//! What a `get` line asks for (PS3.4, section C.4.3.1.3).

ghost use Rattle.std.specs.Prelude.{◌≡◌, ◌++◌, ◌∷◌, [], IfOk, OnOk};
ghost use Rattle.octets.specs.Gives.{Gives};
ghost use Rattle.archive_model.specs.Fault.{is_memory};
ghost use Rattle.archive_model.specs.Selection.{selection_of};
ghost use Rattle.data_set.specs.declared.syntax.Syntax.TheVariants.{Implicit};
ghost use Rattle.data_set.specs.Written.{IsSet};
ghost use Rattle.site_script.specs.Sets.{identifier as identifier_of};
ghost use Rattle.site_script.specs.Retrieves.{first_in as first_of, behind_first as behind_first_of, key_at};
ghost use Rattle.site_script.specs.Retrieves.{study_keys as study_keys_of, series_keys as series_keys_of};
ghost use Rattle.site_script.specs.Retrieves.{image_keys as image_keys_of, named_keys as named_keys_of, in_implicit};
ghost use Rattle.site_script.specs.Retrieves.{SCRIPT_ACCEPTS};

use crate::command::GetLine;
use crate::identifier::identifier;
use crate::key::Key;
use archive_query::{Accepted, Accepts, QueryFault, Selection};
use data_set::{DataSet, Syntax};
use dictionary::{
    CT_IMAGE_STORAGE, KEY_OBJECT_SELECTION_DOCUMENT_STORAGE, QUERY_RETRIEVE_LEVEL,
    SERIES_INSTANCE_UID, SOP_INSTANCE_UID, STUDY_INSTANCE_UID,
};
use octets::{ListOf, Octets, joined, trimmed};
use std::alloc::{AllocError, Global};

/// The first UID, and nothing where there is none.
fn first_in(alloc: Global, uids: &[Octets]) -> Result<Octets, AllocError>
    ensures { IfOk result (λ uid. uid ≡ first_of uids.now) }
{
    match uids {
        [] => Ok(Octets::of(Vec::new(alloc))),
        [first, ..] => first.copy(alloc),
    }
}

fn behind_first(uids: &[Octets]) -> &[Octets]
    ensures { result.now ≡ behind_first_of uids.now }
{
    match uids {
        [] => uids,
        [_, others @ ..] => others,
    }
}

fn put_key(keys: &mut Vec<Key>, tag: u32, value: Octets) -> Result<(), AllocError>
    ensures { OnOk result (keys.new.items ≡ keys.old.items ++ key_at tag value ∷ []) }
{
    keys.push(Key { tag, value })?;
    Ok(())
}

/// The level, and UIDs of studies.
fn study_keys(alloc: Global, level: &Octets, uids: &[Octets]) -> Result<Vec<Key>, AllocError>
    ensures { IfOk result (λ keys. keys.items ≡ study_keys_of level.now uids.now) }
{
    let mut keys = Vec::new(alloc);
    put_key(&mut keys, QUERY_RETRIEVE_LEVEL, level.copy(alloc)?)?;
    put_key(&mut keys, STUDY_INSTANCE_UID, joined(alloc, b'\\', uids)?)?;
    Ok(keys)
}

/// The level, a study, and UIDs of its series.
fn series_keys(alloc: Global, level: &Octets, uids: &[Octets]) -> Result<Vec<Key>, AllocError>
    ensures { IfOk result (λ keys. keys.items ≡ series_keys_of level.now uids.now) }
{
    let series = joined(alloc, b'\\', behind_first(uids))?;
    let mut keys = Vec::new(alloc);
    put_key(&mut keys, QUERY_RETRIEVE_LEVEL, level.copy(alloc)?)?;
    put_key(&mut keys, STUDY_INSTANCE_UID, first_in(alloc, uids)?)?;
    put_key(&mut keys, SERIES_INSTANCE_UID, series)?;
    Ok(keys)
}

/// The level, a study, one of its series, and UIDs of its instances.
fn image_keys(alloc: Global, level: &Octets, uids: &[Octets]) -> Result<Vec<Key>, AllocError>
    ensures { IfOk result (λ keys. keys.items ≡ image_keys_of level.now uids.now) }
{
    let below = behind_first(uids);
    let instances = joined(alloc, b'\\', behind_first(below))?;
    let mut keys = Vec::new(alloc);
    put_key(&mut keys, SOP_INSTANCE_UID, instances)?;
    put_key(&mut keys, QUERY_RETRIEVE_LEVEL, level.copy(alloc)?)?;
    put_key(&mut keys, STUDY_INSTANCE_UID, first_in(alloc, uids)?)?;
    put_key(&mut keys, SERIES_INSTANCE_UID, first_in(alloc, below)?)?;
    Ok(keys)
}

/// The keys of a level and of the UIDs behind it. Below SERIES and IMAGE the UIDs of the levels
/// above come first; a level of another name is told by the reader of the identifier.
#[tactic(auto, unfolding(crate::specs::Retrieves::named_keys))]
pub fn named_keys(alloc: Global, level: &Octets, uids: &[Octets]) -> Result<Vec<Key>, AllocError>
    ensures { IfOk result (λ keys. keys.items ≡ named_keys_of level.now uids.now) }
{
    let name = trimmed(level.as_slice());
    if name == b"SERIES".as_slice() {
        return series_keys(alloc, level, uids);
    }
    if name == b"IMAGE".as_slice() {
        return image_keys(alloc, level, uids);
    }
    study_keys(alloc, level, uids)
}

/// The selection of a `get` line, or why it asks for none.
pub fn selection_in(alloc: Global, line: &GetLine) -> Result<Selection, QueryFault>
    requires { IsSet Implicit (identifier_of line.now.keys) }
    ensures { Gives is_memory (λ selection. selection) result
        (selection_of (identifier_of line.now.keys)) }
{
    let elements = identifier(alloc, line.keys.as_slice())?;
    let set = DataSet::of(Syntax::Implicit, elements);
    Selection::read(alloc, &set)
}

/// A class whose data sets are accepted in the implicit syntax alone.
fn accepted(alloc: Global, class: &[u8]) -> Result<Accepted, AllocError>
    ensures { IfOk result (λ accepted. accepted ≡ in_implicit class.now) }
{
    Ok(Accepted {
        class: Octets::from_slice(alloc, class)?,
        implicit: true,
        explicit: false,
    })
}

/// What a script accepts: the implicit syntax alone, for both classes of its contents.
#[tactic(auto, unfolding(crate::specs::Retrieves::SCRIPT_ACCEPTS))]
pub fn script_accepts(alloc: Global) -> Result<Accepts, AllocError>
    ensures { IfOk result (λ accepts. accepts ≡ SCRIPT_ACCEPTS) }
{
    let mut list = Vec::new(alloc);
    list.push(accepted(alloc, &CT_IMAGE_STORAGE)?)?;
    list.push(accepted(alloc, &KEY_OBJECT_SELECTION_DOCUMENT_STORAGE)?)?;
    Ok(Accepts {
        list: ListOf::of(list),
    })
}
