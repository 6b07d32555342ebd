//! A pass of a running site as a source of pages.

ghost use Rattle.site_pages.specs.HubPages.{says_from};

use crate::looks::{site_told, studies_told, study_told, table_told};
use crate::source::Source;
use archive_page::{Answer, Fact, Form, Sample, Subject};
use site_hub::{HubName, Pass};
use site_tables::Table;
use std::alloc::Global;
use std::marker::Model;

/// A pass that pages are told from, and what its server knows of itself.
#[derive(Drop)]
pub struct HubPages<'a, H: HubName> {
    pub pass: Pass<H>,
    /// What the site is called.
    pub name: &'a [u8],
    /// The names by which it may be asked.
    pub names: &'a [&'a str],
    /// Why its shelf does not take what it is given, if it does not.
    pub fault: Option<&'a [u8]>,
    /// What else its server knows of itself, in the order in which it is told.
    pub facts: &'a [Fact],
    /// What its server counts: those of one name one behind the other.
    pub samples: &'a [Sample],
}

impl<'a, H: HubName> Model for HubPages<'a, H> {
    ghost use Rattle.std.specs.Prelude.{map};
    ghost use Rattle.std.specs.Option.{option_copied};
    ghost use Rattle.site_pages.specs.HubPages.{HubSource};

    ghost Value = { HubSource };

    ghost view = { λ p. record {
      pass = p.pass;
      name = p.name.now;
      names = map (λ name. name.now) p.names.now;
      fault = option_copied p.fault;
      facts = p.facts.now;
      samples = p.samples.now;
    } };
}

impl<'a, H: HubName> Source for HubPages<'a, H> {
    ghost says = { says_from H.opening };

    fn page(
        &mut self,
        alloc: Global,
        subject: Subject,
        form: Form,
        query: &[u8],
    ) -> Option<Answer> {
        match subject {
            Subject::Site => site_told(alloc, &mut self.pass, self.name, self.facts, form),
            Subject::Studies => studies_told(alloc, &mut self.pass, form, query),
            Subject::Rejected => table_told(alloc, &mut self.pass, Table::Rejected, form),
            Subject::Conflicts => table_told(alloc, &mut self.pass, Table::Conflicts, form),
            Subject::Corrections => table_told(alloc, &mut self.pass, Table::Corrections, form),
            Subject::Study => study_told(alloc, &mut self.pass, form, query),
        }
    }

    fn fault(&self) -> Option<&[u8]> {
        self.fault
    }

    fn samples(&self) -> &[Sample] {
        self.samples
    }

    fn names(&self) -> &[&str] {
        self.names
    }
}
