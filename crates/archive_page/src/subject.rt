//! What the pages are about.

ghost use Rattle.std.specs.Prelude.{◌≡◌};
ghost use Rattle.archive_page.specs.Subjects.{title_of, path_of};
ghost use Rattle.archive_page.specs.Subjects.{path_in_html as path_in_html_of};
ghost use Rattle.archive_page.specs.Subjects.{path_in_json as path_in_json_of};

/// What a page is about.
#[derive(Clone, Copy, Debug, PartialEq, Eq)]
pub enum Subject {
    Site,
    Studies,
    /// What notes name.
    Rejected,
    /// The contents of each flagged UID.
    Conflicts,
    Corrections,
    /// One study, which the path names behind `/study/`.
    Study,
}

/// How a page is written.
#[derive(Clone, Copy, Debug, PartialEq, Eq)]
pub enum Form {
    Html,
    Json,
}

impl Subject {
    /// What stands above the page.
    pub fn title(self) -> &'static [u8]
        ensures { result.now ≡ title_of self }
    {
        match self {
            Subject::Site => b"Site",
            Subject::Studies => b"Studies",
            Subject::Rejected => b"Rejected",
            Subject::Conflicts => b"Conflicts",
            Subject::Corrections => b"Corrections",
            Subject::Study => b"Study",
        }
    }

    /// The path of a page about it.
    pub fn path(self, form: Form) -> &'static [u8]
        ensures { result.now ≡ path_of form self }
    {
        match form {
            Form::Html => self.path_in_html(),
            Form::Json => self.path_in_json(),
        }
    }

    fn path_in_html(self) -> &'static [u8]
        ensures { result.now ≡ path_in_html_of self }
    {
        match self {
            Subject::Site => b"/",
            Subject::Studies => b"/studies",
            Subject::Rejected => b"/rejected",
            Subject::Conflicts => b"/conflicts",
            Subject::Corrections => b"/corrections",
            Subject::Study => b"/study/",
        }
    }

    fn path_in_json(self) -> &'static [u8]
        ensures { result.now ≡ path_in_json_of self }
    {
        match self {
            Subject::Site => b"/site.json",
            Subject::Studies => b"/studies.json",
            Subject::Rejected => b"/rejected.json",
            Subject::Conflicts => b"/conflicts.json",
            Subject::Corrections => b"/corrections.json",
            Subject::Study => b"/study/.json",
        }
    }
}
