//! What a request asks for: its host, its method and its path (RFC 9110, sections 7.1 and 9.3).

ghost use Rattle.std.specs.Prelude.{◌≡◌, map};
ghost use Rattle.std.specs.Option.{option_copied};
ghost use Rattle.octets.specs.Texts.{same};
ghost use Rattle.archive_page.specs.Paths.{html_at, json_at, other_at, at};
ghost use Rattle.archive_page.specs.Paths.{behind as behind_in, before as before_in, study_at};
ghost use Rattle.archive_page.specs.Paths.{study_name as study_name_in};
ghost use Rattle.archive_page.specs.Paths.{is_reading as is_reading_in, asked_of, asked_at};

use crate::host::is_asked_here;
use crate::subject::{Form, Subject};

/// What a request asks for.
#[derive(Clone, Copy, Debug, PartialEq, Eq)]
pub enum Asked {
    Page(Subject, Form),
    Style,
    Health,
    /// What is counted of the site.
    Metrics,
    /// Nothing has this path.
    Nothing,
    /// The method is neither GET nor HEAD.
    Change,
    /// The host is none of the site's, whatever else is asked for.
    Elsewhere,
}

/// Whether both have the same bytes.
fn is(text: &[u8], word: &[u8]) -> bool
    ensures { result ≡ same text.now word.now }
{
    text == word
}

/// The page in HTML that has this path.
fn html(path: &[u8]) -> Option<Subject>
    ensures { result ≡ html_at path.now }
{
    if is(path, b"/") {
        return Some(Subject::Site);
    }
    if is(path, b"/studies") {
        return Some(Subject::Studies);
    }
    if is(path, b"/rejected") {
        return Some(Subject::Rejected);
    }
    if is(path, b"/conflicts") {
        return Some(Subject::Conflicts);
    }
    if is(path, b"/corrections") {
        return Some(Subject::Corrections);
    }
    None
}

/// The page in JSON that has this path.
fn json(path: &[u8]) -> Option<Subject>
    ensures { result ≡ json_at path.now }
{
    if is(path, b"/site.json") {
        return Some(Subject::Site);
    }
    if is(path, b"/studies.json") {
        return Some(Subject::Studies);
    }
    if is(path, b"/rejected.json") {
        return Some(Subject::Rejected);
    }
    if is(path, b"/conflicts.json") {
        return Some(Subject::Conflicts);
    }
    if is(path, b"/corrections.json") {
        return Some(Subject::Corrections);
    }
    None
}

/// What stands behind a word, where a text begins with it.
fn behind<'a>(word: &[u8], text: &'a [u8]) -> Option<&'a [u8]>
    ensures { option_copied result ≡ behind_in word.now text.now }
{
    if text.len() < word.len() {
        return None;
    }
    let (front, rest) = text.split_at(word.len());
    if is(front, word) {
        return Some(rest);
    }
    None
}

/// What stands before a word, where a text ends with it.
fn before<'a>(word: &[u8], text: &'a [u8]) -> Option<&'a [u8]>
    ensures { option_copied result ≡ before_in word.now text.now }
{
    if text.len() < word.len() {
        return None;
    }
    let (front, rest) = text.split_at(text.len() - word.len());
    if is(rest, word) {
        return Some(front);
    }
    None
}

/// The page of a study, where this path names one.
fn study(path: &[u8]) -> Asked
    ensures { result ≡ study_at path.now }
{
    match behind(b"/study/", path) {
        None => Asked::Nothing,
        Some(name) => match before(b".json", name) {
            None => Asked::Page(Subject::Study, Form::Html),
            Some(_) => Asked::Page(Subject::Study, Form::Json),
        },
    }
}

/// The name of the study whose page has this path, still encoded (RFC 3986, section 2.1), empty
/// where none has.
pub fn study_name(path: &[u8]) -> &[u8]
    ensures { result.now ≡ study_name_in path.now }
{
    match behind(b"/study/", path) {
        None => &[],
        Some(name) => match before(b".json", name) {
            None => name,
            Some(front) => front,
        },
    }
}

/// What else has this path.
fn other(path: &[u8]) -> Asked
    ensures { result ≡ other_at path.now }
{
    if is(path, b"/style.css") {
        return Asked::Style;
    }
    if is(path, b"/health") {
        return Asked::Health;
    }
    if is(path, b"/metrics") {
        return Asked::Metrics;
    }
    study(path)
}

/// What has this path.
fn found(path: &[u8]) -> Asked
    ensures { result ≡ at path.now }
{
    if let Some(subject) = html(path) {
        return Asked::Page(subject, Form::Html);
    }
    if let Some(subject) = json(path) {
        return Asked::Page(subject, Form::Json);
    }
    other(path)
}

/// Whether a method asks for what is there, and for no change (RFC 9110, sections 9.3.1 and 9.3.2).
fn is_reading(method: &[u8]) -> bool
    ensures { result ≡ is_reading_in method.now }
{
    is(method, b"GET") || is(method, b"HEAD")
}

impl Asked {
    /// What a request asks for, by its method and the path of its target.
    pub fn of(method: &[u8], path: &[u8]) -> Asked
        ensures { result ≡ asked_of method.now path.now }
    {
        if !is_reading(method) {
            return Asked::Change;
        }
        found(path)
    }

    /// What a request asks for that names this host, or none, of the site that has these names.
    pub fn at(host: Option<&[u8]>, names: &[&str], method: &[u8], path: &[u8]) -> Asked
        ensures { result ≡ asked_at (map (λ name. name.now) names.now)
            (option_copied host.entry) method.now path.now }
    {
        if !is_asked_here(host, names) {
            return Asked::Elsewhere;
        }
        Asked::of(method, path)
    }
}
