//! Views: who asks, and what is hidden from them (IHE RAD-66).

ghost use Rattle.std.specs.Prelude.{◌≡◌};
ghost use Rattle.archive_model.specs.View.{hides as hides_in};
ghost use Rattle.archive_model.specs.Covered.{is_hiding as is_hiding_in};

use rejection_note::{Note, NoteTitle};

/// What an archive shows depends on the called AE title of who asks.
#[derive(Clone, Copy, Debug, PartialEq, Eq)]
pub enum View {
    /// Notes of every rejection title hide.
    Archive,
    /// Notes of every title but 113001, Rejected for Quality Reasons, hide.
    Quality,
    /// Nothing hides: every pick is shown, notes too.
    Audit,
}

/// Whether notes of a title hide in a view.
pub fn hides(view: View, title: NoteTitle) -> bool
    ensures { result ≡ hides_in view title }
{
    match (view, title) {
        (View::Archive, _) => true,

        (View::Quality, NoteTitle::Quality) => false,
        (View::Quality, NoteTitle::Safety) => true,
        (View::Quality, NoteTitle::Worklist) => true,
        (View::Quality, NoteTitle::Expired) => true,

        (View::Audit, _) => false,
    }
}

/// Whether a content is itself a note whose title hides.
pub fn is_hiding(view: View, note: &Option<Note>) -> bool
    ensures { result ≡ is_hiding_in view note.now }
{
    match note {
        None => false,
        Some(note) => hides(view, note.title),
    }
}
