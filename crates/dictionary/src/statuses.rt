//! The values of (0000,0900) Status that this archive answers or tells apart (PS3.7, annex C;
//! PS3.4, sections B.2.3, C.4.1.1.4 and C.4.3.1.4).

/// Success.
pub const STATUS_SUCCESS: u16 = 0x0000;

/// Refused: the SOP class is not supported.
pub const STATUS_SOP_CLASS_NOT_SUPPORTED: u16 = 0x0122;

/// Refused: the operation is not recognized.
pub const STATUS_UNRECOGNIZED_OPERATION: u16 = 0x0211;

/// Refused: out of resources.
pub const STATUS_OUT_OF_RESOURCES: u16 = 0xa700;

/// Refused: out of resources, no sub-operation could be performed (C-GET).
pub const STATUS_UNABLE_TO_PERFORM_SUBOPERATIONS: u16 = 0xa702;

/// Error: the data set, or the identifier, does not match the SOP class.
pub const STATUS_DATA_SET_DOES_NOT_MATCH: u16 = 0xa900;

/// The first of the statuses BxxxH, which warn.
pub const FIRST_WARNING_STATUS: u16 = 0xb000;

/// The last of the statuses BxxxH, which warn.
pub const LAST_WARNING_STATUS: u16 = 0xbfff;

/// Warning: sub-operations are complete, and one or more failed or warned (C-GET).
pub const STATUS_SUBOPERATIONS_WITH_FAILURES: u16 = 0xb000;

/// Error: the data set cannot be understood, or the identifier not be processed.
pub const STATUS_CANNOT_UNDERSTAND: u16 = 0xc000;

/// Canceled: sub-operations, or matching, ended by a C-CANCEL.
pub const STATUS_CANCELED: u16 = 0xfe00;

/// Pending: matches, or sub-operations, go on.
pub const STATUS_PENDING: u16 = 0xff00;

/// Pending, where one or more optional keys were not supported.
pub const STATUS_PENDING_WITHOUT_OPTIONAL_KEYS: u16 = 0xff01;
