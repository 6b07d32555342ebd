//! An instance that a C-GET is to send, before its data set is loaded (PS3.4, section C.4.3).

ghost use Rattle.std.specs.Prelude.{◌≡◌};
ghost use Rattle.archive_model.specs.Listed.{with_content};

use crate::change::Change;
use crate::prepared::Prepared;
use data_set::Syntax;
use octets::ListOf;
use operation::{Content, ContentRecord};

/// An instance that is to be sent: its record, and what corrections change of it.
///
/// It holds no byte of the data set, so that many can be held. Its data set is loaded by its record
/// when its turn comes.
#[derive(Debug, Drop)]
pub struct Listed {
    /// The record of the instance as it is stored.
    pub content: ContentRecord,
    /// What corrections change of it. Changes are put in one after another.
    pub changes: ListOf<Change>,
}

impl Listed {
    /// The SOP class (0008,0016).
    pub fn class(&self) -> &[u8]
        ensures { result.now ≡ self.now.content.class }
    {
        self.content.class()
    }

    /// The SOP Instance UID (0008,0018).
    pub fn instance(&self) -> &[u8]
        ensures { result.now ≡ self.now.content.instance }
    {
        self.content.instance()
    }

    /// The transfer syntax in which the data set is stored.
    pub fn syntax(&self) -> Syntax
        ensures { result ≡ self.now.content.syntax }
    {
        self.content.syntax()
    }

    /// The same with the content that was loaded by its record.
    pub fn with(self, content: Content) -> Prepared
        ensures { result ≡ with_content self content }
    {
        let Listed {
            content: _,
            changes,
        } = self;
        Prepared { content, changes }
    }
}
