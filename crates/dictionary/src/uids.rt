//! UIDs that the standard registers (PS3.6, annex A): classes, transfer syntaxes and the
//! application context.

/// Verification SOP Class (PS3.4, annex A)
pub const VERIFICATION: [u8; 17] = *b"1.2.840.10008.1.1";

/// CT Image Storage (PS3.4, section B.5)
pub const CT_IMAGE_STORAGE: [u8; 25] = *b"1.2.840.10008.5.1.4.1.1.2";

/// Key Object Selection Document Storage (PS3.4, section B.5)
pub const KEY_OBJECT_SELECTION_DOCUMENT_STORAGE: [u8; 29] = *b"1.2.840.10008.5.1.4.1.1.88.59";

/// Study Root Query/Retrieve Information Model - FIND (PS3.4, section C.6.2)
pub const STUDY_ROOT_FIND: [u8; 27] = *b"1.2.840.10008.5.1.4.1.2.2.1";

/// Study Root Query/Retrieve Information Model - GET (PS3.4, section C.6.2)
pub const STUDY_ROOT_GET: [u8; 27] = *b"1.2.840.10008.5.1.4.1.2.2.3";

/// What the UIDs of the Storage classes begin with (PS3.4, section B.5)
pub const STORAGE_ROOT: [u8; 24] = *b"1.2.840.10008.5.1.4.1.1.";

/// Implicit VR Little Endian, a transfer syntax (PS3.5, section A.1)
pub const IMPLICIT_VR_LITTLE_ENDIAN: [u8; 17] = *b"1.2.840.10008.1.2";

/// Explicit VR Little Endian, a transfer syntax (PS3.5, section A.2)
pub const EXPLICIT_VR_LITTLE_ENDIAN: [u8; 19] = *b"1.2.840.10008.1.2.1";

/// The DICOM application context name (PS3.7, section A.2.1)
pub const APPLICATION_CONTEXT_NAME: [u8; 21] = *b"1.2.840.10008.3.1.1.1";
