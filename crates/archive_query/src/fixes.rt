//! The values that corrections give some contents, taken from a site.

ghost use Rattle.std.specs.Prelude.{◌≡◌, List, ℕ, IfOk, OnOk, map};
ghost use Rattle.archive_query.specs.Found.{fix_at, fixes_of as fixes_of_in, value_among as value_among_in};
ghost use Rattle.archive_query.specs.Found.{fixes_under as fixes_under_in, value_by, AreFixes, fixes_put};
ghost use Rattle.site_state.specs.Site.{ops_of};

use archive_model::{Asked, Query};
use octets::{ListOf, Octets};
use records::RecordedContent;
use site_state::Site;
use std::alloc::{AllocError, Global};
use std::collections::BTreeMap;
use std::marker::Model;
use study_index::ShortText;

/// A value that corrections give an attribute.
#[derive(Drop)]
pub(crate) struct Fix {
    tag: u32,
    value: Octets,
}

impl Model for Fix {
    ghost use Rattle.std.specs.Prelude.{List, ℕ};

    ghost Value = { ℕ × List ℕ };

    ghost view = { λ f. (f.tag, f.value) };
}

/// The values that corrections give contents, under the SOP Instance UID of each.
#[derive(Drop)]
pub struct Fixes {
    under: BTreeMap<ShortText, ListOf<Fix>>,
}

impl Model for Fixes {
    ghost use Rattle.std.specs.Prelude.{List, ℕ};

    ghost Value = { List (List ℕ × List (ℕ × List ℕ)) };

    ghost view = { λ f. f.under.entries };
}

/// The value of a tag among these, else the content's own.
fn value_among<'a>(own: &'a [u8], tag: u32, fixes: &'a [Fix]) -> &'a [u8]
    ensures { result.now ≡ value_among_in own.now tag fixes.now }
{
    for fix in fixes {
        if fix.tag == tag {
            return fix.value.as_slice();
        }
    }
    own
}

/// The value that corrections give an attribute of a content, where it is not the content's own.
fn fix_of(
    alloc: Global,
    site: &Site,
    content: &RecordedContent,
    asked: &Asked,
) -> Result<Option<Fix>, AllocError>
    ensures { IfOk result (λ fix. fix ≡ fix_at (ops_of site.now) content.now asked.now) }
{
    let value = site.attribute(content, asked.tag);
    if value == content.own_value(asked.tag) {
        return Ok(None);
    }
    Ok(Some(Fix {
        tag: asked.tag,
        value: Octets::from_slice(alloc, value)?,
    }))
}

/// The values that corrections give a content, of the attributes that a query asks.
fn fixes_of(
    alloc: Global,
    site: &Site,
    query: &Query,
    content: &RecordedContent,
) -> Result<ListOf<Fix>, AllocError>
    ensures { IfOk result (λ fixes. fixes ≡
        fixes_of_in (ops_of site.now) query.now.asked content.now) }
{
    let mut fixes = Vec::new(alloc);
    for asked in query.asked.as_slice() {
        if let Some(fix) = fix_of(alloc, site, content, asked)? {
            fixes.push(fix)?;
        }
    }
    Ok(ListOf::of(fixes))
}

impl Fixes {
    /// Puts in those of a content, where it has any.
    fn put(
        &mut self,
        alloc: Global,
        site: &Site,
        query: &Query,
        content: &RecordedContent,
    ) -> Result<(), AllocError>
        ensures { OnOk result ((uid : List ℕ) → fixes_under_in self.new uid ≡
            fixes_put self.old content.now.instance
            (fixes_of_in (ops_of site.now) query.now.asked content.now) uid) }
    {
        let fixes = fixes_of(alloc, site, query, content)?;
        if fixes.is_empty() {
            return Ok(());
        }
        self.under
            .insert(ShortText::whole(content.instance()), fixes)?;
        Ok(())
    }

    /// Those of some contents. Where the site holds no correction, none is looked for.
    pub(crate) fn of(
        alloc: Global,
        site: &Site,
        query: &Query,
        contents: &[&RecordedContent],
    ) -> Result<Fixes, AllocError>
        ensures { IfOk result (λ fixes. AreFixes (ops_of site.now) query.now.asked
            (map (λ c. c.now) contents.now) fixes) }
    {
        let mut fixes = Fixes {
            under: BTreeMap::new(alloc),
        };
        if site.counts().corrections == 0 {
            return Ok(fixes);
        }
        for content in contents {
            fixes.put(alloc, site, query, content)?;
        }
        Ok(fixes)
    }

    /// An attribute of a content, corrected.
    pub(crate) fn attribute<'a>(&'a self, content: &'a RecordedContent, tag: u32) -> &'a [u8]
        ensures { result.now ≡ value_by self.now content.now tag }
    {
        let own = content.own_value(tag);
        match self.under.get(&ShortText::whole(content.instance())) {
            None => own,
            Some(fixes) => value_among(own, tag, fixes.as_slice()),
        }
    }
}
