//! The pick of a SOP Instance UID.
ghost use Rattle.std.specs.Prelude.{◌≡◌, ◌≤◌, IfOk, length, refl, Some};
ghost use Rattle.std.specs.Ordering.{eq_by_cmp, ordering_then};
ghost use Rattle.std.specs.Cmp.{partial_equiv_from_equiv, eq_by_cmp_equiv, partial_order_from_total};
ghost use Rattle.octets.specs.Texts.{text_cmp};
ghost use Rattle.study_index.specs.Index.{pick_of};
ghost use Rattle.study_index.specs.Live.{pick_cmp};
ghost use Rattle.study_index.specs.Proved.Picks.{pick_total, pick_exact};

use crate::short_text::front;
use archive_model::{series, study};
use join_laws::{Copies, Exact};
use operation::Digest;
use records::RecordedContent;
use std::alloc::AllocError;
use std::cmp::Ordering;
use std::marker::Model;

/// The digest of a content, and the study and the series that it names, of which an index knows 64
/// bytes. Picks are ordered by digest, and under one digest by study and series.
///
/// A pick shares the content, and keeps no text of its own.
pub struct Pick {
    content: RecordedContent,
}

impl Model for Pick {
    ghost use Rattle.study_index.specs.Live.{Pick};

    ghost Value = { Pick };

    ghost use Rattle.study_index.specs.Index.{pick_of};

    ghost view = { λ p. pick_of p.content };
}

// It is written out, so that a caller does not prove again how each part is dropped.
impl Drop for Pick {
    fn drop(self) {
        let Pick { content: _ } = self;
    }
}

impl Pick {
    /// A content as a pick.
    pub fn of(content: &RecordedContent) -> Result<Pick, AllocError>
        ensures { IfOk result (λ pick. pick ≡ pick_of content.now) }
    {
        Ok(Pick {
            content: content.copy()?,
        })
    }

    /// The digest of the content.
    pub fn digest(&self) -> &Digest
        ensures { result.now ≡ self.now.digest }
    {
        self.content.digest()
    }

    /// At most 64 bytes of the study.
    pub fn study(&self) -> &[u8]
        ensures value { result.now ≡ self.now.study }
        ensures short { length result.now ≤ 64 }
    {
        front(study(&self.content))
    }

    /// At most 64 bytes of the series.
    pub fn series(&self) -> &[u8]
        ensures value { result.now ≡ self.now.series }
        ensures short { length result.now ≤ 64 }
    {
        front(series(&self.content))
    }

    /// The content, which is shared.
    pub(crate) fn content(&self) -> &RecordedContent
        ensures { pick_of result.now ≡ self.now }
    {
        &self.content
    }

    // The order of picks of one digest.
    fn by_keys(&self, other: &Pick) -> Ordering
        ensures { result ≡ ordering_then (text_cmp self.now.study other.now.study)
            (text_cmp self.now.series other.now.series) }
    {
        match self.study().cmp(other.study()) {
            Ordering::Less => Ordering::Less,
            Ordering::Equal => self.series().cmp(other.series()),
            Ordering::Greater => Ordering::Greater,
        }
    }
}

impl PartialEq for Pick {
    ghost eq = { eq_by_cmp pick_cmp };

    ghost laws = { partial_equiv_from_equiv (eq_by_cmp_equiv pick_total) };

    fn eq(&self, other: &Pick) -> bool {
        self.cmp(other).is_eq()
    }
}

impl Eq for Pick {
    ghost laws = { eq_by_cmp_equiv pick_total };
}

impl PartialOrd for Pick {
    ghost partial_cmp = { λ x y. Some (pick_cmp x y) };

    ghost laws = { partial_order_from_total pick_total };

    fn partial_cmp(&self, other: &Pick) -> Option<Ordering> {
        Some(self.cmp(other))
    }
}

impl Ord for Pick {
    ghost cmp = { pick_cmp };

    ghost total = { pick_total };

    ghost matches_partial_cmp = { λ x y. refl };

    ghost matches_eq = { λ x y. refl };

    fn cmp(&self, other: &Pick) -> Ordering {
        match self.digest().as_bytes().cmp(other.digest().as_bytes()) {
            Ordering::Less => Ordering::Less,
            Ordering::Equal => self.by_keys(other),
            Ordering::Greater => Ordering::Greater,
        }
    }
}

impl Copies for Pick {
    fn copy(&self) -> Result<Pick, AllocError> {
        Ok(Pick {
            content: self.content.copy()?,
        })
    }
}

impl Exact for Pick {
    ghost exact = { pick_exact };
}
