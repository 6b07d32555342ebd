//! The elements of command sets and the values of (0000,0100) and (0000,0800) (PS3.7, section E.1).

/// (0000,0000) Command Group Length, UL
pub const COMMAND_GROUP_LENGTH: u32 = 0x0000_0000;

/// (0000,0002) Affected SOP Class UID, UI
pub const AFFECTED_SOP_CLASS_UID: u32 = 0x0000_0002;

/// (0000,0100) Command Field, US
pub const COMMAND_FIELD: u32 = 0x0000_0100;

/// (0000,0110) Message ID, US
pub const MESSAGE_ID: u32 = 0x0000_0110;

/// (0000,0120) Message ID Being Responded To, US
pub const MESSAGE_ID_BEING_RESPONDED_TO: u32 = 0x0000_0120;

/// (0000,0700) Priority, US
pub const PRIORITY: u32 = 0x0000_0700;

/// (0000,0800) Command Data Set Type, US
pub const COMMAND_DATA_SET_TYPE: u32 = 0x0000_0800;

/// (0000,0900) Status, US
pub const STATUS: u32 = 0x0000_0900;

/// (0000,1000) Affected SOP Instance UID, UI
pub const AFFECTED_SOP_INSTANCE_UID: u32 = 0x0000_1000;

/// (0000,1020) Number of Remaining Sub-operations, US
pub const NUMBER_OF_REMAINING_SUBOPERATIONS: u32 = 0x0000_1020;

/// (0000,1021) Number of Completed Sub-operations, US
pub const NUMBER_OF_COMPLETED_SUBOPERATIONS: u32 = 0x0000_1021;

/// (0000,1022) Number of Failed Sub-operations, US
pub const NUMBER_OF_FAILED_SUBOPERATIONS: u32 = 0x0000_1022;

/// (0000,1023) Number of Warning Sub-operations, US
pub const NUMBER_OF_WARNING_SUBOPERATIONS: u32 = 0x0000_1023;

/// The bit that every response has, and no request, of (0000,0100) Command Field
pub const RESPONSE_BIT: u16 = 0x8000;

/// C-STORE-RQ, of (0000,0100) Command Field
pub const C_STORE_RQ: u16 = 0x0001;

/// C-STORE-RSP, of (0000,0100) Command Field
pub const C_STORE_RSP: u16 = 0x8001;

/// C-GET-RQ, of (0000,0100) Command Field
pub const C_GET_RQ: u16 = 0x0010;

/// C-GET-RSP, of (0000,0100) Command Field
pub const C_GET_RSP: u16 = 0x8010;

/// C-FIND-RQ, of (0000,0100) Command Field
pub const C_FIND_RQ: u16 = 0x0020;

/// C-FIND-RSP, of (0000,0100) Command Field
pub const C_FIND_RSP: u16 = 0x8020;

/// C-ECHO-RQ, of (0000,0100) Command Field
pub const C_ECHO_RQ: u16 = 0x0030;

/// C-ECHO-RSP, of (0000,0100) Command Field
pub const C_ECHO_RSP: u16 = 0x8030;

/// C-CANCEL-RQ, of (0000,0100) Command Field
pub const C_CANCEL_RQ: u16 = 0x0fff;

/// No data set follows, of (0000,0800) Command Data Set Type
pub const NO_DATA_SET: u16 = 0x0101;
