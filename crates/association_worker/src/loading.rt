//! What is loaded by its record (PS3.4, section C.4.3).

ghost use Rattle.std.specs.Prelude.{◌≡◌, ◌≢◌, ◌⊎◌, ◌↔◌, Err, IfOk, IfErr, IsTrue};
ghost use Rattle.operation.specs.declared.op.Op.TheVariants.{Content as a_content};
ghost use Rattle.operation.specs.Parts.{ContentParts};
ghost use Rattle.operation.specs.RecordParts.{content_record};
ghost use Rattle.operation.specs.Spelling.{digest_of};
ghost use Rattle.archive_model.specs.Listed.{IsOfRecord};

use association_session::PortFault;
use operation::{Content, ContentRecord, Op};
use std::alloc::AllocError;

/// Whether a content of its digest is that of a record. Nothing is hashed.
fn is_of(asked: &ContentRecord, content: &Content) -> Result<bool, AllocError>
    requires { asked.now.digest ≡ digest_of (a_content content.now) }
    ensures { IfOk result (λ is. IsTrue is ↔ IsOfRecord asked.now content.now) }
{
    let own = ContentRecord::of(asked.digest(), content)?;
    Ok(own.equals(asked))
}

/// A content, where it is that of a record.
fn content_of(content: Content, asked: &ContentRecord) -> Result<Content, PortFault>
    requires { asked.now.digest ≡ digest_of (a_content content) }
    ensures loaded { IfOk result (λ loaded. (loaded ≡ content) × IsOfRecord asked.now content) }
    ensures shelf { result ≡ Err PortFault.Shelf → content_record content ≢ asked.now }
    ensures fault { IfErr result (λ fault.
        (fault ≡ PortFault.Memory) ⊎ (fault ≡ PortFault.Shelf)) }
{
    match is_of(asked, &content) {
        Ok(true) => Ok(content),
        Ok(false) => Err(PortFault::Shelf),
        Err(_refused) => Err(PortFault::Memory),
    }
}

/// The content of a record, out of the operation that is held under its digest.
pub fn loaded(op: Op, asked: &ContentRecord) -> Result<Content, PortFault>
    requires { asked.now.digest ≡ digest_of op }
    ensures loaded { IfOk result (λ content.
        (op ≡ a_content content) × IsOfRecord asked.now content) }
    ensures shelf { result ≡ Err PortFault.Shelf → (content : ContentParts) →
        op ≡ a_content content → content_record content ≢ asked.now }
    ensures fault { IfErr result (λ fault.
        (fault ≡ PortFault.Memory) ⊎ (fault ≡ PortFault.Shelf)) }
{
    match op {
        Op::Content(content) => content_of(content, asked),
        Op::Correction(_) => Err(PortFault::Shelf),
    }
}
