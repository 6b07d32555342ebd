//! What a command line asks of a site that runs.

ghost use Rattle.std.specs.Prelude.{◌≡◌};
ghost use Rattle.command_line.specs.There.{path_of};

use command_words::Asked;
use site_tables::Table;

/// The four words of a correction, and where the desk of the site is.
#[derive(Clone, Copy, Debug)]
pub struct CorrectingAt<'a> {
    pub at: &'a str,
    pub target: &'a str,
    pub key: &'a str,
    pub tag: &'a str,
    pub value: &'a str,
}

/// A report on a running site, and where its pages are.
#[derive(Clone, Copy, Debug)]
pub struct ReportingAt<'a> {
    pub at: &'a str,
    /// What is told of the site, or the counts where none is named.
    pub table: Option<Table>,
    /// Whether the table is told as tab-separated values.
    pub separated: bool,
}

impl<'a> ReportingAt<'a> {
    /// The path of the page that tells it.
    pub fn path(&self) -> &'static [u8]
        ensures { result.now ≡ path_of self.now.table }
    {
        match self.table {
            None => b"/site.json",
            Some(Table::Conflicts) => b"/conflicts.json",
            Some(Table::Rejected) => b"/rejected.json",
            Some(Table::Corrections) => b"/corrections.json",
            Some(Table::Studies) => b"/studies.json",
        }
    }
}

/// What a command line asks for, here or of a running site.
#[derive(Debug, Drop)]
pub enum Wanted<'a> {
    Here(Asked<'a>),
    /// Makes a correction.
    CorrectAt(CorrectingAt<'a>),
    /// Tells a report.
    ReportAt(ReportingAt<'a>),
}
