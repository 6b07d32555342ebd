//! A page of what a search for studies finds, in JSON.

ghost use Rattle.std.specs.Prelude.{◌≡◌, ◌++◌, ◌∷◌, [], IfOk, OnOk};
ghost use Rattle.json.specs.Lex.{tokens};
ghost use Rattle.json.specs.Print.{print};
ghost use Rattle.archive_page.specs.Values.{string_of};
ghost use Rattle.archive_page.specs.declared.subject.Form.TheVariants.{Json};
ghost use Rattle.archive_page.specs.Links.{link_to};
ghost use Rattle.archive_page.specs.Listings.{number_member, number_members, previous_member, next_member};
ghost use Rattle.archive_page.specs.Listings.{listing_object};

use crate::links::{link, pages};
use crate::listing::{Listing, heading};
use crate::search::Search;
use crate::subject::Form;
use crate::values::{put_columns_member, put_rows_member, put_value};
use json::Writer;
use std::alloc::{AllocError, Global};

/// Writes a number as a member of an object.
#[tactic(auto, unfolding(crate::specs::Listings::number_member))]
fn put_number(writer: &mut Writer, name: &str, value: u64) -> Result<(), AllocError>
    ensures written { OnOk result (writer.new.tokens
        ≡ writer.old.tokens ++ number_member name.now value) }
    ensures kept { writer.new.before ≡ writer.old.before }
{
    writer.key(name)?;
    writer.u64(value)
}

/// Writes a link to a page of what a search finds.
fn put_link(
    alloc: Global,
    writer: &mut Writer,
    search: &Search,
    page: u64,
) -> Result<(), AllocError>
    ensures written { OnOk result (writer.new.tokens
        ≡ writer.old.tokens ++ string_of (link_to Json search.now page) ∷ []) }
    ensures kept { writer.new.before ≡ writer.old.before }
{
    let target = link(alloc, Form::Json, search, page)?;
    put_value(alloc, writer, target.as_slice())
}

#[tactic(auto, unfolding(crate::specs::Listings::previous_member))]
fn put_previous(alloc: Global, writer: &mut Writer, search: &Search) -> Result<(), AllocError>
    ensures written { OnOk result (writer.new.tokens
        ≡ writer.old.tokens ++ previous_member search.now) }
    ensures kept { writer.new.before ≡ writer.old.before }
{
    let page = u64::from(search.page);
    writer.key("previous")?;
    if page < 2 {
        return writer.null();
    }
    put_link(alloc, writer, search, page - 1)
}

#[tactic(auto, unfolding(crate::specs::Listings::next_member))]
fn put_next(
    alloc: Global,
    writer: &mut Writer,
    search: &Search,
    total: u64,
) -> Result<(), AllocError>
    ensures written { OnOk result (writer.new.tokens
        ≡ writer.old.tokens ++ next_member search.now total) }
    ensures kept { writer.new.before ≡ writer.old.before }
{
    let page = u64::from(search.page);
    writer.key("next")?;
    if page < pages(total) {
        return put_link(alloc, writer, search, page + 1);
    }
    writer.null()
}

/// Writes which page it is, how many there are, and how many studies.
#[tactic(auto, unfolding(crate::specs::Listings::number_members))]
fn put_numbers(writer: &mut Writer, listing: &Listing) -> Result<(), AllocError>
    ensures written { OnOk result (writer.new.tokens
        ≡ writer.old.tokens ++ number_members listing.now) }
    ensures kept { writer.new.before ≡ writer.old.before }
{
    put_number(writer, "page", u64::from(listing.search.page))?;
    put_number(writer, "pages", pages(listing.total))?;
    put_number(writer, "studies", listing.total)
}

/// Writes the object of a page of what a search finds.
#[tactic(auto, unfolding(crate::specs::Listings::listing_object))]
fn put_listing(alloc: Global, writer: &mut Writer, listing: &Listing) -> Result<(), AllocError>
    ensures written { OnOk result (writer.new.tokens
        ≡ writer.old.tokens ++ listing_object listing.now) }
    ensures kept { writer.new.before ≡ writer.old.before }
{
    let search = &listing.search;
    let total = listing.total;
    writer.begin_object()?;
    put_columns_member(alloc, writer, heading())?;
    put_rows_member(alloc, writer, listing.rows.as_slice())?;
    put_numbers(writer, listing)?;
    put_previous(alloc, writer, search)?;
    put_next(alloc, writer, search, total)?;
    writer.end_object()
}

/// A page of what a search finds in JSON: the rows, and the links to the pages beside it.
pub(crate) fn listing_in_json(alloc: Global, listing: &Listing) -> Result<Vec<u8>, AllocError>
    ensures text { IfOk result (λ text. text.items ≡ print (listing_object listing.now)) }
    ensures reads_back { IfOk result (λ text. tokens text.items ≡ listing_object listing.now) }
{
    let mut writer = Writer::new(Vec::new(alloc));
    put_listing(alloc, &mut writer, listing)?;
    Ok(writer.into_inner())
}
