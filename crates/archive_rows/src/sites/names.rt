//! What the words of these rows name.

use archive_model::View;
use archive_query::Level;

/// A view, with the title under which it is called.
pub fn view_of(word: &str) -> (View, &'static [u8]) {
    match word {
        "QUALITY" => (View::Quality, b"QUALITY"),
        "AUDIT" => (View::Audit, b"AUDIT"),
        _ => (View::Archive, b"ARCHIVE"),
    }
}

pub fn level_of(word: &str) -> Level {
    match word {
        "STUDY" => Level::Study,
        "SERIES" => Level::Series,
        _ => Level::Image,
    }
}
