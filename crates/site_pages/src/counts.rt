//! What a site is counted by, and what its server knows of itself, as a page.

ghost use Rattle.std.specs.Prelude.{◌≡◌, ◌++◌, ◌∷◌, [], IfOk, OnOk, map};
ghost use Rattle.site_pages.specs.SitePages.{count_rows as count_rows_of, fact_row, site_rows as site_rows_of};
ghost use Rattle.site_pages.specs.SitePages.{site_answer as site_answer_of};

use archive_page::{Answer, Fact, Form, Subject, page_answer};
use octets::{ListOf, Octets, digits};
use site_state::Counts;
use site_tables::Row;
use std::alloc::{AllocError, Global};

/// A row of what is told, and its value.
fn pair(alloc: Global, what: &[u8], value: Octets) -> Result<Row, AllocError>
    ensures { IfOk result (λ row. row ≡ what.now ∷ value ∷ []) }
{
    let mut row = ListOf::new(alloc);
    row.push(Octets::from_slice(alloc, what)?)?;
    row.push(value)?;
    Ok(row)
}

/// The rows of a site of a name: how many operations it holds, and how many of each kind.
fn count_rows(alloc: Global, name: &[u8], counts: Counts) -> Result<Vec<Row>, AllocError>
    ensures { IfOk result (λ rows. rows.items ≡ count_rows_of name.now counts) }
{
    let mut rows = Vec::new(alloc);
    rows.push(pair(alloc, b"name", Octets::from_slice(alloc, name)?)?)?;
    rows.push(pair(
        alloc,
        b"operations",
        digits(alloc, counts.operations as u64)?,
    )?)?;
    rows.push(pair(alloc, b"contents", digits(alloc, counts.contents as u64)?)?)?;
    rows.push(pair(
        alloc,
        b"corrections",
        digits(alloc, counts.corrections as u64)?,
    )?)?;
    Ok(rows)
}

/// Puts what a server knows of itself.
fn put_facts(alloc: Global, facts: &[Fact], rows: &mut Vec<Row>) -> Result<(), AllocError>
    ensures { OnOk result (rows.new.items ≡ rows.old.items ++ map fact_row facts.now) }
{
    for fact in facts {
        let value = fact.value.copy(alloc)?;
        rows.push(pair(alloc, fact.what.as_slice(), value)?)?;
    }
    Ok(())
}

/// The same, and behind them what its server knows of itself.
fn site_rows(
    alloc: Global,
    name: &[u8],
    facts: &[Fact],
    counts: Counts,
) -> Result<Vec<Row>, AllocError>
    ensures { IfOk result (λ rows. rows.items ≡ site_rows_of name.now facts.now counts) }
{
    let mut rows = count_rows(alloc, name, counts)?;
    put_facts(alloc, facts, &mut rows)?;
    Ok(rows)
}

/// The page of a site of a name, which holds so many operations.
pub fn site_answer(
    alloc: Global,
    name: &[u8],
    facts: &[Fact],
    form: Form,
    counts: Counts,
) -> Result<Answer, AllocError>
    ensures { IfOk result (λ answer. answer ≡ site_answer_of name.now facts.now form counts) }
{
    let rows = site_rows(alloc, name, facts, counts)?;
    page_answer(
        alloc,
        Subject::Site,
        form,
        &["WHAT", "VALUE"],
        rows.as_slice(),
    )
}
