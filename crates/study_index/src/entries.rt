//! What an index holds of contents and of notes, beside the picks.
ghost use Rattle.std.specs.Prelude.{◌≡◌, ◌≤◌, IfOk, length, refl, Some};
ghost use Rattle.std.specs.Ordering.{eq_by_cmp};
ghost use Rattle.std.specs.Cmp.{partial_equiv_from_equiv, eq_by_cmp_equiv, partial_order_from_total};
ghost use Rattle.operation.specs.declared.op.Op.TheVariants.{Content as a_content};
ghost use Rattle.operation.specs.Spelling.{digest_of};
ghost use Rattle.study_index.specs.Index.{a_copy, copy_cmp, naming_cmp};
ghost use Rattle.study_index.specs.Proved.Indexes.{copy_total, copy_exact, naming_total, naming_exact};

use crate::short_text::ShortText;
use join_laws::{Copies, Exact};
use operation::Digest;
use records::RecordedContent;
use std::alloc::{AllocError, Global};
use std::cmp::Ordering;
use std::marker::Model;

/// A content: its SOP Instance UID and its digest, ordered by the one, then by the other.
///
/// It shares the content, and keeps no text of its own.
pub struct ContentCopy {
    content: RecordedContent,
}

impl Model for ContentCopy {
    ghost use Rattle.study_index.specs.Index.{Copy};

    ghost Value = { Copy };

    ghost use Rattle.study_index.specs.CopyView.{copy_view};

    ghost view = { λ a. copy_view a.content };
}

// It is written out, so that a caller does not prove again how each part is dropped.
impl Drop for ContentCopy {
    fn drop(self) {
        let ContentCopy { content: _ } = self;
    }
}

impl ContentCopy {
    /// The copy that a content is.
    pub fn of(content: &RecordedContent) -> Result<ContentCopy, AllocError>
        ensures { IfOk result (λ copy. copy ≡
            a_copy content.now.instance (digest_of (a_content content.now))) }
    {
        Ok(ContentCopy {
            content: content.copy()?,
        })
    }

    /// The SOP Instance UID.
    pub fn uid(&self) -> &[u8]
        ensures value { result.now ≡ self.now.uid }
        ensures short { length result.now ≤ 64 }
    {
        self.content.instance()
    }

    /// The digest.
    pub fn digest(&self) -> &Digest
        ensures { result.now ≡ self.now.digest }
    {
        self.content.digest()
    }
}

impl PartialEq for ContentCopy {
    ghost eq = { eq_by_cmp copy_cmp };

    ghost laws = { partial_equiv_from_equiv (eq_by_cmp_equiv copy_total) };

    fn eq(&self, other: &ContentCopy) -> bool {
        self.cmp(other).is_eq()
    }
}

impl Eq for ContentCopy {
    ghost laws = { eq_by_cmp_equiv copy_total };
}

impl PartialOrd for ContentCopy {
    ghost partial_cmp = { λ x y. Some (copy_cmp x y) };

    ghost laws = { partial_order_from_total copy_total };

    fn partial_cmp(&self, other: &ContentCopy) -> Option<Ordering> {
        Some(self.cmp(other))
    }
}

impl Ord for ContentCopy {
    ghost cmp = { copy_cmp };

    ghost total = { copy_total };

    ghost matches_partial_cmp = { λ x y. refl };

    ghost matches_eq = { λ x y. refl };

    fn cmp(&self, other: &ContentCopy) -> Ordering {
        match self.uid().cmp(other.uid()) {
            Ordering::Less => Ordering::Less,
            Ordering::Equal => self.digest().as_bytes().cmp(other.digest().as_bytes()),
            Ordering::Greater => Ordering::Greater,
        }
    }
}

impl Copies for ContentCopy {
    fn copy(&self) -> Result<ContentCopy, AllocError> {
        Ok(ContentCopy {
            content: self.content.copy()?,
        })
    }
}

impl Exact for ContentCopy {
    ghost exact = { copy_exact };
}

/// A UID that a note names, and the code of the note's title (PS3.16, CID 7010).
#[derive(Drop)]
pub struct Naming {
    pub uid: ShortText,
    pub title: u32,
}

impl Model for Naming {
    ghost use Rattle.study_index.specs.Index.{Naming};

    ghost Value = { Naming };

    ghost view = { λ a. record { uid = a.uid; title = a.title } };
}

impl PartialEq for Naming {
    ghost eq = { eq_by_cmp naming_cmp };

    ghost laws = { partial_equiv_from_equiv (eq_by_cmp_equiv naming_total) };

    fn eq(&self, other: &Naming) -> bool {
        self.cmp(other).is_eq()
    }
}

impl Eq for Naming {
    ghost laws = { eq_by_cmp_equiv naming_total };
}

impl PartialOrd for Naming {
    ghost partial_cmp = { λ x y. Some (naming_cmp x y) };

    ghost laws = { partial_order_from_total naming_total };

    fn partial_cmp(&self, other: &Naming) -> Option<Ordering> {
        Some(self.cmp(other))
    }
}

impl Ord for Naming {
    ghost cmp = { naming_cmp };

    ghost total = { naming_total };

    ghost matches_partial_cmp = { λ x y. refl };

    ghost matches_eq = { λ x y. refl };

    fn cmp(&self, other: &Naming) -> Ordering {
        self.uid.cmp(&other.uid).then(self.title.cmp(&other.title))
    }
}

impl Copies for Naming {
    fn copy(&self) -> Result<Naming, AllocError> {
        Ok(Naming {
            uid: self.uid.duplicate(),
            title: self.title,
        })
    }
}

impl Exact for Naming {
    ghost exact = { naming_exact };
}
