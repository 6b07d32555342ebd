//! Where a pick stands in the list of places.
ghost use Rattle.std.specs.Prelude.{◌≡◌, ◌≤◌, IfOk, length, refl, Some};
ghost use Rattle.std.specs.Ordering.{eq_by_cmp, nat_cmp, ordering_then};
ghost use Rattle.std.specs.Cmp.{partial_equiv_from_equiv, eq_by_cmp_equiv, partial_order_from_total};
ghost use Rattle.octets.specs.Texts.{text_cmp};
ghost use Rattle.study_index.specs.Index.{pick_of};
ghost use Rattle.study_index.specs.Live.{place_cmp, place_of};
ghost use Rattle.study_index.specs.Proved.Picks.{place_total};

use crate::pick::Pick;
use crate::short_text::{ShortText, front};
use archive_model::{series, study};
use records::RecordedContent;
use std::alloc::{AllocError, Global};
use std::cmp::Ordering;
use std::marker::Model;
use std::sync::Arc;

/// Study, series and instance, and the ends: the end of a study, and of a series, stands behind all
/// that stands in it.
#[derive(Drop)]
pub struct PlaceParts {
    pub(crate) study: ShortText,
    /// 0, or 1 for the end of the study.
    pub(crate) study_end: u8,
    pub(crate) series: ShortText,
    /// 0, or 1 for the end of the series.
    pub(crate) series_end: u8,
    pub(crate) instance: ShortText,
}

impl Model for PlaceParts {
    ghost use Rattle.study_index.specs.Live.{Place};

    ghost Value = { Place };

    ghost view = { λ p. record {
      study = p.study;
      study_end = p.study_end;
      series = p.series;
      series_end = p.series_end;
      instance = p.instance;
    } };
}

/// Where the parts of a place stand.
#[derive(Drop)]
pub enum PlaceSource {
    /// In a content, which is shared: its own study and series, and its own instance.
    Stored(RecordedContent),
    /// In texts, for the ends of a range.
    Given(Arc<PlaceParts, Global>),
}

/// Study, series and instance. Places are ordered part after part.
///
/// One of a content shares the content, and keeps no text of its own.
pub struct Place {
    source: PlaceSource,
}

impl Model for Place {
    ghost use Rattle.study_index.specs.Live.{Place};

    ghost Value = { Place };

    ghost use Rattle.study_index.specs.PlaceView.{place_view};

    ghost view = { λ p. place_view p.source };
}

// It is written out, so that a caller does not prove again how each part is dropped.
impl Drop for Place {
    fn drop(self) {
        let Place { source: _ } = self;
    }
}

impl Place {
    /// A place of such parts.
    pub fn given(alloc: Global, parts: PlaceParts) -> Result<Place, AllocError>
        ensures { IfOk result (λ place. place ≡ parts) }
    {
        Ok(Place {
            source: PlaceSource::Given(Arc::new(alloc, parts)?),
        })
    }

    // Where a content stands.
    fn stored(content: &RecordedContent) -> Result<Place, AllocError>
        ensures { IfOk result (λ place. place ≡
            place_of content.now.instance (pick_of content.now)) }
    {
        Ok(Place {
            source: PlaceSource::Stored(content.copy()?),
        })
    }

    /// Where a pick of an instance stands. It shares the pick's content, which has the instance.
    pub fn of(alloc: Global, instance: &ShortText, pick: &Pick) -> Result<Place, AllocError>
        ensures { IfOk result (λ place. place ≡ place_of instance.now pick.now) }
    {
        let content = pick.content();
        if content.instance() == instance.as_slice() {
            return Place::stored(content);
        }
        let parts = PlaceParts {
            study: ShortText::whole(pick.study()),
            study_end: 0,
            series: ShortText::whole(pick.series()),
            series_end: 0,
            instance: instance.duplicate(),
        };
        Place::given(alloc, parts)
    }

    /// The study, of which an index knows 64 bytes.
    pub fn study(&self) -> &[u8]
        ensures value { result.now ≡ self.now.study }
        ensures short { length result.now ≤ 64 }
    {
        match &self.source {
            PlaceSource::Stored(content) => front(study(content)),
            PlaceSource::Given(parts) => parts.study.as_slice(),
        }
    }

    /// The series, of which an index knows 64 bytes.
    pub fn series(&self) -> &[u8]
        ensures value { result.now ≡ self.now.series }
        ensures short { length result.now ≤ 64 }
    {
        match &self.source {
            PlaceSource::Stored(content) => front(series(content)),
            PlaceSource::Given(parts) => parts.series.as_slice(),
        }
    }

    /// The SOP Instance UID.
    pub fn instance(&self) -> &[u8]
        ensures value { result.now ≡ self.now.instance }
        ensures short { length result.now ≤ 64 }
    {
        match &self.source {
            PlaceSource::Stored(content) => content.instance(),
            PlaceSource::Given(parts) => parts.instance.as_slice(),
        }
    }

    // 0, or 1 for the end of the study.
    fn study_end(&self) -> u8
        ensures { result ≡ self.now.study_end }
    {
        match &self.source {
            PlaceSource::Stored(_) => 0,
            PlaceSource::Given(parts) => parts.study_end,
        }
    }

    // 0, or 1 for the end of the series.
    fn series_end(&self) -> u8
        ensures { result ≡ self.now.series_end }
    {
        match &self.source {
            PlaceSource::Stored(_) => 0,
            PlaceSource::Given(parts) => parts.series_end,
        }
    }

    /// A second owner of the same place.
    pub fn copy(&self) -> Result<Place, AllocError>
        ensures { IfOk result (λ copy. copy ≡ self.now) }
    {
        let source = match &self.source {
            PlaceSource::Stored(content) => PlaceSource::Stored(content.copy()?),
            PlaceSource::Given(parts) => PlaceSource::Given(Arc::try_clone(parts)?),
        };
        Ok(Place { source })
    }

    // The order of places of one study and one series.
    fn in_series(&self, other: &Place) -> Ordering
        ensures { result ≡ ordering_then (nat_cmp self.now.series_end other.now.series_end)
            (text_cmp self.now.instance other.now.instance) }
    {
        match self.series_end().cmp(&other.series_end()) {
            Ordering::Less => Ordering::Less,
            Ordering::Equal => self.instance().cmp(other.instance()),
            Ordering::Greater => Ordering::Greater,
        }
    }

    // The order of places of one study, by their series.
    fn by_series(&self, other: &Place) -> Ordering
        ensures { result ≡ ordering_then (text_cmp self.now.series other.now.series)
            (ordering_then (nat_cmp self.now.series_end other.now.series_end)
            (text_cmp self.now.instance other.now.instance)) }
    {
        match self.series().cmp(other.series()) {
            Ordering::Less => Ordering::Less,
            Ordering::Equal => self.in_series(other),
            Ordering::Greater => Ordering::Greater,
        }
    }

    // The order of places of one study.
    fn in_study(&self, other: &Place) -> Ordering
        ensures { result ≡ ordering_then (nat_cmp self.now.study_end other.now.study_end)
            (ordering_then (text_cmp self.now.series other.now.series)
            (ordering_then (nat_cmp self.now.series_end other.now.series_end)
            (text_cmp self.now.instance other.now.instance))) }
    {
        match self.study_end().cmp(&other.study_end()) {
            Ordering::Less => Ordering::Less,
            Ordering::Equal => self.by_series(other),
            Ordering::Greater => Ordering::Greater,
        }
    }
}

impl PartialEq for Place {
    ghost eq = { eq_by_cmp place_cmp };

    ghost laws = { partial_equiv_from_equiv (eq_by_cmp_equiv place_total) };

    fn eq(&self, other: &Place) -> bool {
        self.cmp(other).is_eq()
    }
}

impl Eq for Place {
    ghost laws = { eq_by_cmp_equiv place_total };
}

impl PartialOrd for Place {
    ghost partial_cmp = { λ x y. Some (place_cmp x y) };

    ghost laws = { partial_order_from_total place_total };

    fn partial_cmp(&self, other: &Place) -> Option<Ordering> {
        Some(self.cmp(other))
    }
}

impl Ord for Place {
    ghost cmp = { place_cmp };

    ghost total = { place_total };

    ghost matches_partial_cmp = { λ x y. refl };

    ghost matches_eq = { λ x y. refl };

    fn cmp(&self, other: &Place) -> Ordering {
        match self.study().cmp(other.study()) {
            Ordering::Less => Ordering::Less,
            Ordering::Equal => self.in_study(other),
            Ordering::Greater => Ordering::Greater,
        }
    }
}
