//! Looks at a running site, and what is made behind each.

ghost use Rattle.std.specs.Prelude.{◌≡◌, IfOk};
ghost use Rattle.std.specs.Option.{IfSome};
ghost use Rattle.site_state.specs.Site.{ops_of, counts_of};
ghost use Rattle.site_hub.specs.History.{set_of};
ghost use Rattle.site_hub.specs.Hub.{HasLooked};
ghost use Rattle.site_pages.specs.SitePages.{site_answer as site_answer_of};
ghost use Rattle.site_pages.specs.StudiesPages.{studies_answer, query_of as query_in, listing_of};
ghost use Rattle.site_pages.specs.StudyPages.{IsPageOf, IsStudyPage};
ghost use Rattle.site_pages.specs.TablePages.{IsTablePage};
ghost use Rattle.archive_page.specs.Answers.{listing_answer};

use crate::counts::site_answer;
use crate::listing::listed;
use crate::looking::{CountsOf, StudiesOf, StudyOf, TableOf};
use crate::searching::{Searched, query_of, search_of};
use crate::study::study_page;
use crate::tables::table_answer;
use archive_page::{Answer, Fact, Form, Search, decoded};
use archive_query::{PreparedQuery, Query};
use site_hub::{HubName, Pass};
use site_tables::Table;
use std::alloc::Global;

/// The page of the site itself, in one look.
pub(crate) fn site_told<H: HubName>(
    alloc: Global,
    pass: &mut Pass<H>,
    name: &[u8],
    facts: &[Fact],
    form: Form,
) -> Option<Answer>
    ensures looked { HasLooked pass.old pass.new }
    ensures page { IfSome result (λ answer. answer ≡ site_answer_of name.now facts.now form
        (counts_of (ops_of (set_of H.opening pass.new.seen)))) }
{
    match pass.look(&CountsOf) {
        Ok(counts) => site_answer(alloc, name, facts, form, counts).ok(),
        Err(_fault) => None,
    }
}

/// The page of a table, in one look, which takes what the table concerns.
pub(crate) fn table_told<H: HubName>(
    alloc: Global,
    pass: &mut Pass<H>,
    table: Table,
    form: Form,
) -> Option<Answer>
    ensures looked { HasLooked pass.old pass.new }
    ensures page { IfSome result (λ answer. IsTablePage table form
        (ops_of (set_of H.opening pass.new.seen)) answer) }
{
    match pass.look(&TableOf { table }) {
        Ok(taken) => table_answer(alloc, table, form, &taken).ok(),
        Err(_fault) => None,
    }
}

/// The page of what a query finds, in one look, which takes what a C-FIND takes.
#[tactic(auto, using(crate::proofs::LookLaws::looked_self))]
fn listing_told<H: HubName>(
    alloc: Global,
    pass: &mut Pass<H>,
    form: Form,
    search: Search,
    query: &Query,
) -> Option<Answer>
    requires { query.now ≡ query_in search }
    ensures looked { HasLooked pass.old pass.new }
    ensures page { IfSome result (λ answer. answer
        ≡ listing_answer form (listing_of search (ops_of (set_of H.opening pass.new.seen)))) }
{
    let prepared = match PreparedQuery::of(alloc, query) {
        Ok(prepared) => prepared,
        Err(_refused) => return None,
    };
    match pass.look(&StudiesOf { query: &prepared }) {
        Ok(taken) => listed(alloc, form, search, query, &taken).ok(),
        Err(_fault) => None,
    }
}

/// The page of what a search finds.
#[tactic(auto, using(crate::proofs::LookLaws::looked_self))]
fn search_told<H: HubName>(
    alloc: Global,
    pass: &mut Pass<H>,
    form: Form,
    search: Search,
) -> Option<Answer>
    ensures looked { HasLooked pass.old pass.new }
    ensures page { IfSome result (λ answer. answer
        ≡ listing_answer form (listing_of search (ops_of (set_of H.opening pass.new.seen)))) }
{
    match query_of(alloc, &search) {
        Ok(query) => listing_told(alloc, pass, form, search, &query),
        Err(_refused) => None,
    }
}

/// What a query for studies is answered, in one look, or in none where it says no search.
#[tactic(auto, using(crate::proofs::LookLaws::looked_self))]
pub(crate) fn studies_told<H: HubName>(
    alloc: Global,
    pass: &mut Pass<H>,
    form: Form,
    query: &[u8],
) -> Option<Answer>
    ensures looked { HasLooked pass.old pass.new }
    ensures page { IfSome result (λ answer. answer
        ≡ studies_answer form query.now (ops_of (set_of H.opening pass.new.seen))) }
{
    match search_of(alloc, query) {
        Ok(Searched::Found(search)) => search_told(alloc, pass, form, search),
        Ok(Searched::Refused(answer)) => Some(answer),
        Err(_refused) => None,
    }
}

/// The page of a study, in one look, which takes what is told of it.
fn page_told<H: HubName>(
    alloc: Global,
    pass: &mut Pass<H>,
    form: Form,
    uid: &[u8],
) -> Option<Answer>
    ensures looked { HasLooked pass.old pass.new }
    ensures page { IfSome result (λ answer. IsPageOf form uid.now
        (ops_of (set_of H.opening pass.new.seen)) answer) }
{
    match pass.look(&StudyOf { uid }) {
        Ok(taken) => study_page(alloc, form, uid, &taken).ok(),
        Err(_fault) => None,
    }
}

/// The page of the study that a name encodes.
#[tactic(auto, using(crate::proofs::LookLaws::looked_self))]
pub(crate) fn study_told<H: HubName>(
    alloc: Global,
    pass: &mut Pass<H>,
    form: Form,
    name: &[u8],
) -> Option<Answer>
    ensures looked { HasLooked pass.old pass.new }
    ensures page { IfSome result (λ answer. IsStudyPage form name.now
        (ops_of (set_of H.opening pass.new.seen)) answer) }
{
    match decoded(alloc, name) {
        Ok(uid) => page_told(alloc, pass, form, uid.as_slice()),
        Err(_refused) => None,
    }
}
