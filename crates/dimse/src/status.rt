//! How an operation ended, as responses tell it (PS3.7, annex C; PS3.4, sections B.2.3 and C.4).

ghost use Rattle.std.specs.Prelude.{◌≡◌};
ghost use Rattle.dimse.specs.Status.{status_code};

use dictionary::{
    STATUS_CANCELED, STATUS_CANNOT_UNDERSTAND, STATUS_DATA_SET_DOES_NOT_MATCH,
    STATUS_OUT_OF_RESOURCES, STATUS_PENDING, STATUS_PENDING_WITHOUT_OPTIONAL_KEYS,
    STATUS_SOP_CLASS_NOT_SUPPORTED, STATUS_SUBOPERATIONS_WITH_FAILURES, STATUS_SUCCESS,
    STATUS_UNABLE_TO_PERFORM_SUBOPERATIONS, STATUS_UNRECOGNIZED_OPERATION,
};

/// The values of (0000,0900) Status that this archive answers.
#[derive(Clone, Copy, Debug, PartialEq, Eq)]
pub enum Status {
    Success,
    /// The class is not that of the presentation context.
    SopClassNotSupported,
    UnrecognizedOperation,
    OutOfResources,
    /// Out of resources, of a C-GET: no sub-operation was performed.
    UnableToPerformSubOperations,
    /// The data set or the identifier does not match the SOP class.
    DataSetMismatch,
    /// Sub-operations are complete, and one or more failed or warned.
    SubOperationsWithFailures,
    /// The data set cannot be understood, or the identifier not be processed.
    CannotUnderstand,
    Cancel,
    Pending,
    /// Pending, where a key of the query is not supported.
    PendingWithoutOptionalKeys,
}

impl Status {
    /// The value of the status.
    pub fn code(self) -> u16
        ensures { result ≡ status_code self }
    {
        match self {
            Status::Success => STATUS_SUCCESS,
            Status::SopClassNotSupported => STATUS_SOP_CLASS_NOT_SUPPORTED,
            Status::UnrecognizedOperation => STATUS_UNRECOGNIZED_OPERATION,
            Status::OutOfResources => STATUS_OUT_OF_RESOURCES,
            Status::UnableToPerformSubOperations => STATUS_UNABLE_TO_PERFORM_SUBOPERATIONS,
            Status::DataSetMismatch => STATUS_DATA_SET_DOES_NOT_MATCH,
            Status::SubOperationsWithFailures => STATUS_SUBOPERATIONS_WITH_FAILURES,
            Status::CannotUnderstand => STATUS_CANNOT_UNDERSTAND,
            Status::Cancel => STATUS_CANCELED,
            Status::Pending => STATUS_PENDING,
            Status::PendingWithoutOptionalKeys => STATUS_PENDING_WITHOUT_OPTIONAL_KEYS,
        }
    }
}
