//! What an attribute is to this archive: of which entity it tells, how it matches as a key, whether
//! its values are kept, and whether a correction may give it another.

ghost use Rattle.std.specs.Prelude.{◌≡◌};
ghost use Rattle.dictionary.specs.Roles.{correction_of, key_of, kept_tags as kept_in, corrected_tags as corrected_in};

use crate::elements::{
    ACCESSION_NUMBER, INSTANCE_NUMBER, MODALITY, PATIENT_BIRTH_DATE, PATIENT_ID, PATIENT_NAME,
    PATIENT_SEX, REFERRING_PHYSICIAN_NAME, SERIES_DESCRIPTION, SERIES_INSTANCE_UID, SERIES_NUMBER,
    SOP_CLASS_UID, SOP_INSTANCE_UID, SPECIFIC_CHARACTER_SET, STUDY_DATE, STUDY_DESCRIPTION,
    STUDY_ID, STUDY_INSTANCE_UID, STUDY_TIME,
};

/// The entity that an attribute tells of (PS3.3, section A.1.2).
#[derive(Clone, Copy, Debug, PartialEq, Eq)]
pub enum Entity {
    Patient,
    Study,
    Series,
    Instance,
}

/// How a key matches (PS3.4, section C.2.2.2).
#[derive(Clone, Copy, Debug, PartialEq, Eq)]
pub enum Matching {
    /// A date, or a range of dates.
    Dates,
    /// A time, or a range of times.
    Times,
    /// `*` stands for any bytes, `?` for one.
    WildCard,
    /// The same, and ASCII letters match in either case.
    Name,
    /// Each of a list of UIDs.
    Uids,
    /// The same bytes.
    Single,
    /// It is answered, and matches whatever it holds.
    Answered,
}

/// What an attribute is to this archive.
#[derive(Clone, Copy, Debug, PartialEq, Eq)]
pub enum Role {
    /// No key, and no value of it is kept.
    Plain,
    /// No key. Its value is kept of each content.
    Kept,
    /// A key that is answered by what is shown, and that no content has.
    Counted(Entity),
    /// A key. Its value is kept of each content.
    Key(Entity, Matching),
    /// The same, and a correction may give it another value (docs/DECISIONS.md, "Corrections").
    Corrected(Entity, Matching),
}

const KEPT_TAGS: [u32; 19] = [
    SPECIFIC_CHARACTER_SET,
    SOP_CLASS_UID,
    SOP_INSTANCE_UID,
    STUDY_DATE,
    STUDY_TIME,
    ACCESSION_NUMBER,
    MODALITY,
    REFERRING_PHYSICIAN_NAME,
    STUDY_DESCRIPTION,
    SERIES_DESCRIPTION,
    PATIENT_NAME,
    PATIENT_ID,
    PATIENT_BIRTH_DATE,
    PATIENT_SEX,
    STUDY_INSTANCE_UID,
    SERIES_INSTANCE_UID,
    STUDY_ID,
    SERIES_NUMBER,
    INSTANCE_NUMBER,
];

const CORRECTED_TAGS: [u32; 11] = [
    STUDY_DATE,
    STUDY_TIME,
    ACCESSION_NUMBER,
    REFERRING_PHYSICIAN_NAME,
    STUDY_DESCRIPTION,
    SERIES_DESCRIPTION,
    PATIENT_NAME,
    PATIENT_ID,
    PATIENT_BIRTH_DATE,
    PATIENT_SEX,
    STUDY_ID,
];

impl Role {
    /// The entity of an attribute that a correction may give a value, or `None` of any other.
    pub fn correction(self) -> Option<Entity>
        ensures { result ≡ correction_of self }
    {
        match self {
            Role::Plain => None,
            Role::Kept => None,
            Role::Counted(_) => None,
            Role::Key(_, _) => None,
            Role::Corrected(entity, _) => Some(entity),
        }
    }

    /// The entity of a key and how it matches, or `None` of any other attribute.
    pub fn key(self) -> Option<(Entity, Matching)>
        ensures { result ≡ key_of self }
    {
        match self {
            Role::Plain => None,
            Role::Kept => None,
            Role::Counted(entity) => Some((entity, Matching::Answered)),
            Role::Key(entity, matching) => Some((entity, matching)),
            Role::Corrected(entity, matching) => Some((entity, matching)),
        }
    }

    /// The attributes whose values are kept of a content, by ascending tag.
    pub fn kept_tags() -> &'static [u32]
        ensures { result.now ≡ kept_in }
    {
        &KEPT_TAGS
    }

    /// The attributes that a correction may give a value, by ascending tag (docs/DECISIONS.md,
    /// "Corrections").
    pub fn corrected_tags() -> &'static [u32]
        ensures { result.now ≡ corrected_in }
    {
        &CORRECTED_TAGS
    }
}
