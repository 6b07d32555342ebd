//! The tables of a site as pages.

ghost use Rattle.std.specs.Prelude.{◌≡◌, IfOk};
ghost use Rattle.site_tables.specs.Tables.{rows_of_taken};
ghost use Rattle.site_pages.specs.TablePages.{subject_of as subject_in};
ghost use Rattle.site_pages.specs.TablePages.{table_answer as table_answer_of};

use archive_page::{Answer, Form, Subject, page_answer};
use site_tables::{Table, TakenTable};
use std::alloc::{AllocError, Global};

/// What the page of a table is about.
pub fn subject_of(table: Table) -> Subject
    ensures { result ≡ subject_in table }
{
    match table {
        Table::Conflicts => Subject::Conflicts,
        Table::Rejected => Subject::Rejected,
        Table::Corrections => Subject::Corrections,
        Table::Studies => Subject::Studies,
    }
}

/// What was taken for a table as its page: its rows, in order.
pub fn table_answer(
    alloc: Global,
    table: Table,
    form: Form,
    taken: &TakenTable,
) -> Result<Answer, AllocError>
    ensures { IfOk result (λ answer. answer
        ≡ table_answer_of table form (rows_of_taken taken.now)) }
{
    let rows = taken.rows(alloc)?;
    page_answer(
        alloc,
        subject_of(table),
        form,
        table.heading(),
        rows.as_slice(),
    )
}
