//! Where the pages are: a law, said as the contract of a function with nothing to do.

ghost use Rattle.std.specs.Prelude.{◌≡◌};
ghost use Rattle.archive_page.specs.declared.asked.Asked.TheVariants.{Page};
ghost use Rattle.archive_page.specs.declared.subject.Form.{Form};
ghost use Rattle.archive_page.specs.declared.subject.Subject.{Subject};
ghost use Rattle.archive_page.specs.Paths.{at};
ghost use Rattle.archive_page.specs.Subjects.{path_of};

/// The path of each page leads to it.
pub fn each_path_leads_to_its_page()
    ensures { (subject : Subject) (form : Form) → at (path_of form subject) ≡ Page subject form }
{}
