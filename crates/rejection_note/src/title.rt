//! The document titles of rejection notes (PS3.16, CID 7010).

ghost use Rattle.std.specs.Prelude.{◌≡◌};
ghost use Rattle.rejection_note.specs.Notes.{title_of as title_of_value, title_in as title_in_item};

use data_set::{Element, value_of};
use dictionary::{
    CODE_VALUE, CODING_SCHEME_DCM, CODING_SCHEME_DESIGNATOR, DATA_RETENTION_POLICY_EXPIRED,
    INCORRECT_MODALITY_WORKLIST_ENTRY, REJECTED_FOR_PATIENT_SAFETY_REASONS,
    REJECTED_FOR_QUALITY_REASONS,
};

/// Why images were rejected.
#[derive(Clone, Copy, Debug, PartialEq, Eq)]
pub enum NoteTitle {
    /// 113001, Rejected for Quality Reasons.
    Quality,
    /// 113037, Rejected for Patient Safety Reasons.
    Safety,
    /// 113038, Incorrect Modality Worklist Entry.
    Worklist,
    /// 113039, Data Retention Policy Expired.
    Expired,
}

fn title_of(code: &[u8]) -> Option<NoteTitle>
    ensures { result ≡ title_of_value code.now }
{
    if code == REJECTED_FOR_QUALITY_REASONS.as_slice() {
        return Some(NoteTitle::Quality);
    }
    if code == REJECTED_FOR_PATIENT_SAFETY_REASONS.as_slice() {
        return Some(NoteTitle::Safety);
    }
    if code == INCORRECT_MODALITY_WORKLIST_ENTRY.as_slice() {
        return Some(NoteTitle::Worklist);
    }
    if code == DATA_RETENTION_POLICY_EXPIRED.as_slice() {
        return Some(NoteTitle::Expired);
    }
    None
}

/// The rejection title that an item of (0040,A043) names, if it is one.
pub fn title_in(item: &[Element]) -> Option<NoteTitle>
    ensures { result ≡ title_in_item item.now }
{
    let scheme = value_of(item, CODING_SCHEME_DESIGNATOR)?;
    if scheme != CODING_SCHEME_DCM.as_slice() {
        return None;
    }
    title_of(value_of(item, CODE_VALUE)?)
}
