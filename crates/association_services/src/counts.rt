//! What the sub-operations of a C-GET came to (PS3.7, section 9.1.3; PS3.4, section C.4.3.1).

ghost use Rattle.std.specs.Prelude.{◌≡◌, ◌<◌, ◌≤◌, [], IfOk, take, length};
ghost use Rattle.association_services.specs.Get.{is_warning as is_warning_code, outcome_by, outcome_of, counted};
ghost use Rattle.association_services.specs.Get.{all_counted, final_status, fitting, room_in, vr_in, uid_list};
ghost use Rattle.association_services.specs.Get.{failed_text as text_of_failed, failed_set};

use bytes::Bytes;
use data_set::{DataSet, Element, Syntax, padded_of, write};
use dictionary::{
    FAILED_SOP_INSTANCE_UID_LIST, FIRST_WARNING_STATUS, LAST_WARNING_STATUS, STATUS_SUCCESS,
};
use dimse::Status;
use octets::{ListOf, Octets, joined};
use std::alloc::{AllocError, Global};

/// What a sub-operation came to, by the status of its response (PS3.7, section C.1).
#[derive(Clone, Copy)]
pub enum Outcome {
    /// 0000H.
    Completed,
    /// BxxxH, a warning.
    Warned,
    /// Any other status or none, and an instance that no context takes.
    Failed,
}

/// The sub-operations that ended.
#[derive(Drop)]
pub(crate) struct Counts {
    pub(crate) completed: u16,
    pub(crate) warning: u16,
    /// The instances whose sub-operations failed, in order.
    pub(crate) failed: ListOf<Octets>,
}

/// Whether a status is a warning.
fn is_warning(status: u16) -> bool
    ensures { result ≡ is_warning_code status }
{
    FIRST_WARNING_STATUS <= status && status <= LAST_WARNING_STATUS
}

/// What a sub-operation with this status in its response came to.
pub(crate) fn outcome_for(status: Option<u16>) -> Outcome
    ensures { result ≡ outcome_of status }
{
    match status {
        None => Outcome::Failed,
        Some(status) => {
            if status == STATUS_SUCCESS {
                return Outcome::Completed;
            }
            if is_warning(status) {
                return Outcome::Warned;
            }
            Outcome::Failed
        }
    }
}

/// The failed instances that have room in a UID list with a backslash at its end.
fn fitted(uids: &[Octets], room: usize) -> usize
    ensures within { result ≤ length uids.now }
    ensures first { take result uids.now ≡ fitting room uids.now }
{
    let mut left = room;
    for (i, uid) in uids.iter().enumerate() {
        if left <= uid.len() {
            return i;
        }
        left -= uid.len() + 1;
    }
    uids.len()
}

/// How many bytes of a UID list with a backslash at its end have room in a data set.
fn room(syntax: Syntax) -> usize
    ensures { result ≡ room_in syntax }
{
    match syntax {
        Syntax::Implicit => 0xFFFF_FFFE,
        Syntax::Explicit => 0xFFFF,
    }
}

fn vr(syntax: Syntax) -> Option<[u8; 2]>
    ensures { result ≡ vr_in syntax }
{
    match syntax {
        Syntax::Implicit => None,
        Syntax::Explicit => Some(*b"UI"),
    }
}

/// The value of the UID list, padded.
fn uid_list_of(alloc: Global, syntax: Syntax, uids: &[Octets]) -> Result<Octets, AllocError>
    ensures { IfOk result (λ value. value ≡ uid_list (fitting (room_in syntax) uids.now)) }
{
    let count = fitted(uids, room(syntax));
    let text = joined(alloc, b'\\', &uids[..count])?;
    padded_of(alloc, *b"UI", text.as_slice())
}

/// The data set that names failed instances.
fn failed_text(alloc: Global, syntax: Syntax, uids: &[Octets]) -> Result<Bytes, AllocError>
    ensures { IfOk result (λ text. text ≡ text_of_failed syntax uids.now) }
{
    let value = uid_list_of(alloc, syntax, uids)?;
    let element = Element::leaf(FAILED_SOP_INSTANCE_UID_LIST, vr(syntax), value);
    let mut elements = Vec::new(alloc);
    elements.push(element)?;
    let set = DataSet::of(syntax, elements);
    Ok(Bytes::from_vec(write(alloc, &set)?)?)
}

impl Counts {
    /// None ended yet.
    pub(crate) fn new(alloc: Global) -> Counts
        ensures { result ≡ record { completed = 0; warning = 0; failed = [] } }
    {
        Counts {
            completed: 0,
            warning: 0,
            failed: ListOf::new(alloc),
        }
    }

    /// Counts one more, of this instance.
    pub(crate) fn count(self, outcome: Outcome, instance: Octets) -> Result<Counts, AllocError>
        requires { all_counted self < 65535 }
        ensures { IfOk result (λ counts. counts ≡ counted outcome instance self) }
    {
        let Counts {
            completed,
            warning,
            mut failed,
        } = self;
        match outcome {
            Outcome::Completed => Ok(Counts {
                completed: completed + 1,
                warning,
                failed,
            }),
            Outcome::Warned => Ok(Counts {
                completed,
                warning: warning + 1,
                failed,
            }),
            Outcome::Failed => {
                failed.push(instance)?;
                Ok(Counts {
                    completed,
                    warning,
                    failed,
                })
            }
        }
    }

    /// The status of the last response.
    pub(crate) fn status(&self) -> Status
        ensures { result ≡ final_status self.now }
    {
        if self.failed.is_empty() && self.warning == 0 {
            return Status::Success;
        }
        if self.completed == 0 && self.warning == 0 {
            return Status::UnableToPerformSubOperations;
        }
        Status::SubOperationsWithFailures
    }

    /// The data set that names the failed instances, where there are any.
    pub(crate) fn failed_set(
        &self,
        alloc: Global,
        syntax: Syntax,
    ) -> Result<Option<Bytes>, AllocError>
        ensures { IfOk result (λ set. set ≡ failed_set syntax self.now.failed) }
    {
        if self.failed.is_empty() {
            return Ok(None);
        }
        Ok(Some(failed_text(alloc, syntax, self.failed.as_slice())?))
    }
}
