//! The elements of data sets that this archive knows (PS3.6, section 6).
//!
//! A tag is one number, group first: (0008,0018) is `0x0008_0018`.

ghost use Rattle.std.specs.Prelude.{◌≡◌};
ghost use Rattle.dictionary.specs.Elements.{vr_in_table, role_in_table};

use crate::role::{Entity, Matching, Role};

/// (0008,0005) Specific Character Set, CS
pub const SPECIFIC_CHARACTER_SET: u32 = 0x0008_0005;

/// (0008,0016) SOP Class UID, UI
pub const SOP_CLASS_UID: u32 = 0x0008_0016;

/// (0008,0018) SOP Instance UID, UI
pub const SOP_INSTANCE_UID: u32 = 0x0008_0018;

/// (0008,0020) Study Date, DA
pub const STUDY_DATE: u32 = 0x0008_0020;

/// (0008,0030) Study Time, TM
pub const STUDY_TIME: u32 = 0x0008_0030;

/// (0008,0050) Accession Number, SH
pub const ACCESSION_NUMBER: u32 = 0x0008_0050;

/// (0008,0052) Query/Retrieve Level, CS
pub const QUERY_RETRIEVE_LEVEL: u32 = 0x0008_0052;

/// (0008,0054) Retrieve AE Title, AE
pub const RETRIEVE_AE_TITLE: u32 = 0x0008_0054;

/// (0008,0058) Failed SOP Instance UID List, UI, which the responses to a C-GET have
pub const FAILED_SOP_INSTANCE_UID_LIST: u32 = 0x0008_0058;

/// (0008,0060) Modality, CS
pub const MODALITY: u32 = 0x0008_0060;

/// (0008,0061) Modalities in Study, CS
pub const MODALITIES_IN_STUDY: u32 = 0x0008_0061;

/// (0008,0090) Referring Physician's Name, PN
pub const REFERRING_PHYSICIAN_NAME: u32 = 0x0008_0090;

/// (0008,0100) Code Value, SH
pub const CODE_VALUE: u32 = 0x0008_0100;

/// (0008,0102) Coding Scheme Designator, SH
pub const CODING_SCHEME_DESIGNATOR: u32 = 0x0008_0102;

/// (0008,1030) Study Description, LO
pub const STUDY_DESCRIPTION: u32 = 0x0008_1030;

/// (0008,103E) Series Description, LO
pub const SERIES_DESCRIPTION: u32 = 0x0008_103e;

/// (0008,1115) Referenced Series Sequence, SQ
pub const REFERENCED_SERIES_SEQUENCE: u32 = 0x0008_1115;

/// (0008,1155) Referenced SOP Instance UID, UI
pub const REFERENCED_SOP_INSTANCE_UID: u32 = 0x0008_1155;

/// (0008,1199) Referenced SOP Sequence, SQ
pub const REFERENCED_SOP_SEQUENCE: u32 = 0x0008_1199;

/// (0010,0010) Patient's Name, PN
pub const PATIENT_NAME: u32 = 0x0010_0010;

/// (0010,0020) Patient ID, LO
pub const PATIENT_ID: u32 = 0x0010_0020;

/// (0010,0030) Patient's Birth Date, DA
pub const PATIENT_BIRTH_DATE: u32 = 0x0010_0030;

/// (0010,0040) Patient's Sex, CS
pub const PATIENT_SEX: u32 = 0x0010_0040;

/// (0020,000D) Study Instance UID, UI
pub const STUDY_INSTANCE_UID: u32 = 0x0020_000d;

/// (0020,000E) Series Instance UID, UI
pub const SERIES_INSTANCE_UID: u32 = 0x0020_000e;

/// (0020,0010) Study ID, SH
pub const STUDY_ID: u32 = 0x0020_0010;

/// (0020,0011) Series Number, IS
pub const SERIES_NUMBER: u32 = 0x0020_0011;

/// (0020,0013) Instance Number, IS
pub const INSTANCE_NUMBER: u32 = 0x0020_0013;

/// (0020,1206) Number of Study Related Series, IS
pub const NUMBER_OF_STUDY_RELATED_SERIES: u32 = 0x0020_1206;

/// (0020,1208) Number of Study Related Instances, IS
pub const NUMBER_OF_STUDY_RELATED_INSTANCES: u32 = 0x0020_1208;

/// (0020,1209) Number of Series Related Instances, IS
pub const NUMBER_OF_SERIES_RELATED_INSTANCES: u32 = 0x0020_1209;

/// (0040,A043) Concept Name Code Sequence, SQ
pub const CONCEPT_NAME_CODE_SEQUENCE: u32 = 0x0040_a043;

/// (0040,A375) Current Requested Procedure Evidence Sequence, SQ
pub const CURRENT_REQUESTED_PROCEDURE_EVIDENCE_SEQUENCE: u32 = 0x0040_a375;

/// (7FE0,0010) Pixel Data, OB or OW
pub const PIXEL_DATA: u32 = 0x7fe0_0010;

/// (FFFE,E000) Item, which has no value representation
pub const ITEM: u32 = 0xfffe_e000;

/// (FFFE,E00D) Item Delimitation Item
pub const ITEM_DELIMITATION_ITEM: u32 = 0xfffe_e00d;

/// (FFFE,E0DD) Sequence Delimitation Item
pub const SEQUENCE_DELIMITATION_ITEM: u32 = 0xfffe_e0dd;

/// The line of a tag in the table: its value representation, and what it is to this archive. An
/// element without a line has UN, and is nothing to it.
#[tactic(auto, unfolding(crate::specs::Elements::vr_in_table, crate::specs::Elements::role_in_table))]
fn line_of(tag: u32) -> ([u8; 2], Role)
    ensures vr { result.0 ≡ vr_in_table tag }
    ensures role { result.1 ≡ role_in_table tag }
{
    use Entity::{Instance, Patient, Series, Study};
    use Matching::{Dates, Name, Single, Times, Uids, WildCard};
    use Role::{Corrected, Counted, Kept, Key, Plain};
    match tag {
        SPECIFIC_CHARACTER_SET => (*b"CS", Kept),
        SOP_CLASS_UID => (*b"UI", Key(Instance, Uids)),
        SOP_INSTANCE_UID => (*b"UI", Key(Instance, Uids)),
        STUDY_DATE => (*b"DA", Corrected(Study, Dates)),
        STUDY_TIME => (*b"TM", Corrected(Study, Times)),
        ACCESSION_NUMBER => (*b"SH", Corrected(Study, WildCard)),
        QUERY_RETRIEVE_LEVEL => (*b"CS", Plain),
        RETRIEVE_AE_TITLE => (*b"AE", Plain),
        MODALITY => (*b"CS", Key(Series, WildCard)),
        MODALITIES_IN_STUDY => (*b"CS", Counted(Study)),
        REFERRING_PHYSICIAN_NAME => (*b"PN", Corrected(Study, WildCard)),
        CODE_VALUE => (*b"SH", Plain),
        CODING_SCHEME_DESIGNATOR => (*b"SH", Plain),
        STUDY_DESCRIPTION => (*b"LO", Corrected(Study, WildCard)),
        SERIES_DESCRIPTION => (*b"LO", Corrected(Series, WildCard)),
        REFERENCED_SERIES_SEQUENCE => (*b"SQ", Plain),
        REFERENCED_SOP_INSTANCE_UID => (*b"UI", Plain),
        REFERENCED_SOP_SEQUENCE => (*b"SQ", Plain),
        PATIENT_NAME => (*b"PN", Corrected(Patient, Name)),
        PATIENT_ID => (*b"LO", Corrected(Patient, WildCard)),
        PATIENT_BIRTH_DATE => (*b"DA", Corrected(Patient, Dates)),
        PATIENT_SEX => (*b"CS", Corrected(Patient, WildCard)),
        STUDY_INSTANCE_UID => (*b"UI", Key(Study, Uids)),
        SERIES_INSTANCE_UID => (*b"UI", Key(Series, Uids)),
        STUDY_ID => (*b"SH", Corrected(Study, WildCard)),
        SERIES_NUMBER => (*b"IS", Key(Series, Single)),
        INSTANCE_NUMBER => (*b"IS", Key(Instance, Single)),
        NUMBER_OF_STUDY_RELATED_SERIES => (*b"IS", Counted(Study)),
        NUMBER_OF_STUDY_RELATED_INSTANCES => (*b"IS", Counted(Study)),
        NUMBER_OF_SERIES_RELATED_INSTANCES => (*b"IS", Counted(Series)),
        CONCEPT_NAME_CODE_SEQUENCE => (*b"SQ", Plain),
        CURRENT_REQUESTED_PROCEDURE_EVIDENCE_SEQUENCE => (*b"SQ", Plain),
        _ => (*b"UN", Plain),
    }
}

/// The value representation of an element that this archive knows, and UN of any other.
pub fn vr_of(tag: u32) -> [u8; 2]
    ensures { result ≡ vr_in_table tag }
{
    line_of(tag).0
}

/// What an attribute is to this archive.
pub fn role_of(tag: u32) -> Role
    ensures { result ≡ role_in_table tag }
{
    line_of(tag).1
}
