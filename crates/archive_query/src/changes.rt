//! What corrections change of a content, which the index of a site looks up (PS3.4, section B.4.1).

ghost use Rattle.std.specs.Prelude.{◌≡◌, ◌≤◌, length, IfOk, IfSome, IsTrue};
ghost use Rattle.std.specs.List.{filter_map, list_all};
ghost use Rattle.std.specs.Option.{option_copied};
ghost use Rattle.operation.specs.Corrections.{is_corrected};
ghost use Rattle.site_state.specs.Site.{ops_of};
ghost use Rattle.archive_model.specs.Preparing.{change_for, changes_for};
ghost use Rattle.archive_query.specs.Changes.{changed_value as changed_value_in};

use archive_model::{Change, corrected_tags};
use octets::ListOf;
use records::RecordedContent;
use site_state::Site;
use std::alloc::{AllocError, Global};

/// The value that corrections give an attribute of a content, where it is another than the
/// content's own.
fn changed_value<'a>(site: &'a Site, content: &RecordedContent, tag: u32) -> Option<&'a [u8]>
    ensures value { option_copied result ≡ changed_value_in (ops_of site.now) content.now tag }
    ensures short { IfSome result (λ value. length value.now ≤ 64) }
{
    site.see_lawful();
    match site.index().latest(content, tag) {
        None => None,
        Some(fix) => {
            let value = fix.value.as_slice();
            if value == content.own_value(tag) {
                return None;
            }
            Some(value)
        }
    }
}

/// The change of an attribute that a correction may give a value, where there is one.
fn change(
    alloc: Global,
    site: &Site,
    content: &RecordedContent,
    tag: u32,
) -> Result<Option<Change>, AllocError>
    requires { IsTrue (is_corrected tag) }
    ensures { IfOk result (λ change. change ≡ change_for (ops_of site.now) content.now tag) }
{
    match changed_value(site, content, tag) {
        None => Ok(None),
        Some(value) => Change::of(alloc, tag, value),
    }
}

/// Those of some attributes that a correction may give a value, in their order.
fn changes_under(
    alloc: Global,
    site: &Site,
    content: &RecordedContent,
    tags: &[u32],
) -> Result<Vec<Change>, AllocError>
    requires { IsTrue (list_all is_corrected tags.now) }
    ensures { IfOk result (λ changes. changes.items ≡
        filter_map (change_for (ops_of site.now) content.now) tags.now) }
{
    let mut changes = Vec::new(alloc);
    for tag in tags {
        if let Some(change) = change(alloc, site, content, *tag)? {
            changes.push(change)?;
        }
    }
    Ok(changes)
}

/// What corrections change of a content, by ascending tag.
#[tactic(auto, unfolding(dictionary::specs::Elements::role_in_table))]
pub fn changes(
    alloc: Global,
    site: &Site,
    content: &RecordedContent,
) -> Result<ListOf<Change>, AllocError>
    ensures { IfOk result (λ changes. changes ≡ changes_for (ops_of site.now) content.now) }
{
    let changes = changes_under(alloc, site, content, corrected_tags())?;
    Ok(ListOf::of(changes))
}
