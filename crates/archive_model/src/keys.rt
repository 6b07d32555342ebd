//! The elements by which contents are grouped.

ghost use Rattle.std.specs.Prelude.{◌≡◌};
ghost use Rattle.archive_model.specs.Contents.{study_of, series_of, patient_of, modality_of};

use dictionary::{MODALITY, PATIENT_ID, SERIES_INSTANCE_UID, STUDY_INSTANCE_UID};
use records::RecordedContent;

/// The study of a content.
pub fn study(content: &RecordedContent) -> &[u8]
    ensures { result.now ≡ study_of content.now }
{
    content.own_value(STUDY_INSTANCE_UID)
}

/// The series of a content.
pub fn series(content: &RecordedContent) -> &[u8]
    ensures { result.now ≡ series_of content.now }
{
    content.own_value(SERIES_INSTANCE_UID)
}

/// The Patient ID of a content, as stored.
pub fn patient(content: &RecordedContent) -> &[u8]
    ensures { result.now ≡ patient_of content.now }
{
    content.own_value(PATIENT_ID)
}

/// The modality of a content, empty where it has none.
pub fn modality(content: &RecordedContent) -> &[u8]
    ensures { result.now ≡ modality_of content.now }
{
    content.own_value(MODALITY)
}
