//! The codes of titles, under which an index holds which UIDs are named (PS3.16, CID 7010).

ghost use Rattle.std.specs.Prelude.{◌≡◌};
ghost use Rattle.archive_model.specs.Index.{code_of};

use rejection_note::NoteTitle;

/// The code of a title (PS3.16, CID 7010).
pub fn title_code(title: NoteTitle) -> u32
    ensures { result ≡ code_of title }
{
    match title {
        NoteTitle::Quality => 113_001,
        NoteTitle::Safety => 113_037,
        NoteTitle::Worklist => 113_038,
        NoteTitle::Expired => 113_039,
    }
}
