//! An instance that a C-GET is to send, before it is made (PS3.4, sections B.4.1 and C.4.3).

ghost use Rattle.std.specs.Prelude.{◌≡◌, ◌≤◌, length, IfOk};
ghost use Rattle.archive_model.specs.Change.{IsChange};
ghost use Rattle.archive_model.specs.Prepared.{with_change as with_change_in, with_changes as with_changes_in};
ghost use Rattle.archive_model.specs.Prepared.{is_as_stored as is_as_stored_in, text_in, IsTextIn, IsSetIn};
ghost use Rattle.archive_model.specs.Prepared.{IsMadeText};

use crate::accepts::Form;
use crate::change::Change;
use crate::reading::stored;
use bytes::Bytes;
use data_set::{DataSet, Syntax, correction_vr, write};
use octets::ListOf;
use operation::Content;
use std::alloc::{AllocError, Global};

/// An instance that is to be sent: as it is stored, and what corrections change of it.
///
/// It shares the bytes of the data set, and its changes are small, so that many can be held. Its
/// data set is made by `body`, when its turn comes.
#[derive(Debug, Drop)]
pub struct Prepared {
    /// The instance as it is stored.
    pub content: Content,
    /// What corrections change of it. Changes are put in one after another.
    pub changes: ListOf<Change>,
}

/// A data set with one change put in.
fn with_change(alloc: Global, set: DataSet, change: &Change) -> Result<DataSet, AllocError>
    ensures syntax { IfOk result (λ d. d.syntax ≡ set.syntax) }
    ensures elements { IfOk result (λ d. d.elements ≡
        with_change_in set.syntax change.now set.elements) }
{
    match correction_vr(change.tag()) {
        None => Ok(set),
        Some(vr) => {
            let changed = set.replaced(alloc, change.tag(), vr, change.value())?;
            Ok(changed)
        }
    }
}

/// The same with several changes, one after another.
fn with_changes(alloc: Global, set: DataSet, changes: &[Change]) -> Result<DataSet, AllocError>
    ensures syntax { IfOk result (λ d. d.syntax ≡ set.syntax) }
    ensures elements { IfOk result (λ d. d.elements ≡
        with_changes_in set.syntax changes.now set.elements) }
{
    let mut changed = set;
    for change in changes {
        changed = with_change(alloc, changed, change)?;
    }
    Ok(changed)
}

impl Prepared {
    /// The SOP class (0008,0016).
    pub fn class(&self) -> &[u8]
        ensures value { result.now ≡ self.now.content.class }
        ensures short { length result.now ≤ 64 }
    {
        self.content.class()
    }

    /// The SOP Instance UID (0008,0018).
    pub fn instance(&self) -> &[u8]
        ensures value { result.now ≡ self.now.content.instance }
        ensures short { length result.now ≤ 64 }
    {
        self.content.instance()
    }

    /// The transfer syntax in which the data set is stored.
    pub fn syntax(&self) -> Syntax
        ensures { result ≡ self.now.content.syntax }
    {
        self.content.syntax()
    }

    /// Whether the stored bytes are sent.
    fn is_as_stored(&self, form: Form) -> bool
        ensures { result ≡ is_as_stored_in form self.now }
    {
        match form {
            Form::Own => self.changes.is_empty(),
            Form::Converted => false,
        }
    }

    /// The data set that is sent in this form.
    fn set_in(&self, alloc: Global, form: Form) -> Result<DataSet, AllocError>
        ensures { IfOk result (λ d. IsSetIn form self.now d) }
    {
        let set = stored(alloc, &self.content)?;
        let changed = with_changes(alloc, set, self.changes.as_slice())?;
        match form {
            Form::Own => Ok(changed),
            Form::Converted => {
                let converted = changed.to_implicit(alloc)?;
                Ok(converted)
            }
        }
    }

    /// The same, written.
    fn written(&self, alloc: Global, form: Form) -> Result<Bytes, AllocError>
        ensures { IfOk result (λ text. IsMadeText form self.now text) }
    {
        let set = self.set_in(alloc, form)?;
        let written = write(alloc, &set)?;
        let text = Bytes::from_vec(written)?;
        Ok(text)
    }

    /// The bytes of the data set in this form, with each change put in. Where nothing changes and
    /// it goes out in its own transfer syntax these are the stored bytes, shared and not copied.
    #[tactic(auto, using(crate::proofs::PreparedLaws::stored_text, crate::proofs::PreparedLaws::written_text))]
    pub fn body(&self, alloc: Global, form: Form) -> Result<Bytes, AllocError>
        ensures exact { IfOk result (λ text. text ≡ text_in form self.now) }
        // What is written is read again.
        ensures made { IfOk result (λ text. IsTextIn form self.now text) }
    {
        if self.is_as_stored(form) {
            return Ok(self.content.body().clone()?);
        }
        let text = self.written(alloc, form)?;
        Ok(text)
    }
}
