//! What is held of an operation whose bytes lie elsewhere.
//!
//! A record is seen as an operation: as the one that stands for all operations of this record, the
//! first in the order of their bytes. So what is defined over operations is said of records in the
//! same words. Where no two operations have one digest, it is the operation that was recorded.
#![tactic(auto)]

mod laws;
mod recorded_content;
mod recorded_correction;
mod recorded_op;

pub use laws::a_stand_in_is_the_operation;
pub use recorded_content::RecordedContent;
pub use recorded_correction::RecordedCorrection;
pub use recorded_op::{Parts, RecordedOp};
