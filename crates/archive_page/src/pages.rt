//! A table as a page in HTML.

ghost use Rattle.std.specs.Prelude.{◌≡◌, ◌++◌, IfOk, OnOk, map};
ghost use Rattle.archive_page.specs.Pages.{above_table, below_table, html_page};

use crate::frame::{END, HEAD, LINK, LINKS};
use crate::subject::{Form, Subject};
use crate::tables::put_table;
use octets::{ListOf, Octets};
use std::alloc::{AllocError, Global};

/// Puts what stands above the table of a page.
#[tactic(auto, unfolding(crate::specs::Pages::above_table))]
pub(crate) fn put_above(out: &mut Vec<u8>, subject: Subject) -> Result<(), AllocError>
    ensures { OnOk result (out.new.items ≡ out.old.items ++ above_table subject) }
{
    out.extend_from_slice(HEAD.as_slice())?;
    out.extend_from_slice(subject.title())?;
    out.extend_from_slice(LINKS.as_slice())?;
    out.extend_from_slice(subject.title())?;
    out.extend_from_slice(b"</h1>\n")
}

/// Puts what stands below the table of a page: a link to the same table in JSON.
#[tactic(auto, unfolding(crate::specs::Pages::below_table))]
fn put_below(out: &mut Vec<u8>, subject: Subject) -> Result<(), AllocError>
    ensures { OnOk result (out.new.items ≡ out.old.items ++ below_table subject) }
{
    out.extend_from_slice(LINK.as_slice())?;
    out.extend_from_slice(subject.path(Form::Json))?;
    out.extend_from_slice(END.as_slice())
}

/// A heading and rows below it as a page in HTML.
#[tactic(auto, unfolding(crate::specs::Pages::html_page))]
pub(crate) fn page_of(
    alloc: Global,
    subject: Subject,
    heading: &[&str],
    rows: &[ListOf<Octets>],
) -> Result<Vec<u8>, AllocError>
    ensures { IfOk result (λ text. text.items
        ≡ html_page subject (map (λ cell. cell.now) heading.now) rows.now) }
{
    let mut out = Vec::new(alloc);
    put_above(&mut out, subject)?;
    put_table(alloc, &mut out, heading, rows)?;
    put_below(&mut out, subject)?;
    Ok(out)
}
