//! What tells the pages.

ghost use Rattle.std.specs.Prelude.{◌≡◌, map};
ghost use Rattle.std.specs.Option.{option_copied};
ghost use Rattle.site_pages.specs.Telling.{Says};

use archive_page::{Answer, Form, Sample, Subject};
use std::alloc::Global;

/// What tells the pages.
pub trait Source {
    // What is told of pages, why the site takes nothing, if so, what is counted of it, and which
    // names it has.
    ghost says: { Says Self };

    /// The page about a subject, asked with a query (RFC 3986, section 3.4), or of a study with its
    /// name in the path, or none where it can't be told now.
    fn page(&mut self, alloc: Global, subject: Subject, form: Form, query: &[u8]) -> Option<Answer>
        ensures { says.tells self.old subject form query.now result self.new };

    /// Why the site does not take what it is given, if it does not.
    fn fault(&self) -> Option<&[u8]>
        ensures { option_copied result ≡ says.fault_of self.now };

    /// What is counted of the site.
    fn samples(&self) -> &[Sample]
        ensures { result.now ≡ says.samples_of self.now };

    /// The names by which it may be asked.
    fn names(&self) -> &[&str]
        ensures { map (λ name. name.now) result.now ≡ says.names_of self.now };
}
