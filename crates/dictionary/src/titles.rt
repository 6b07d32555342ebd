//! The document titles of rejection notes, by their code values (PS3.16, CID 7010), and the coding
//! scheme of these.

/// The coding scheme designator of DICOM's own terms (PS3.16, section 8)
pub const CODING_SCHEME_DCM: [u8; 3] = *b"DCM";

/// Rejected for Quality Reasons
pub const REJECTED_FOR_QUALITY_REASONS: [u8; 6] = *b"113001";

/// Rejected for Patient Safety Reasons
pub const REJECTED_FOR_PATIENT_SAFETY_REASONS: [u8; 6] = *b"113037";

/// Incorrect Modality Worklist Entry
pub const INCORRECT_MODALITY_WORKLIST_ENTRY: [u8; 6] = *b"113038";

/// Data Retention Policy Expired
pub const DATA_RETENTION_POLICY_EXPIRED: [u8; 6] = *b"113039";
