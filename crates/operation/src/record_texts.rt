//! Records of contents as bytes. Numbers are spelled with the high byte first.

ghost use Rattle.std.specs.Prelude.{◌≡◌, ◌≢◌, ◌++◌, ◌∷◌, ◌<◌, ◌^◌, List, ℕ, None, Some, length, IfOk, IfSome, OnOk};
ghost use Rattle.std.specs.Int.{w64, to_be_bytes};
ghost use Rattle.data_set.specs.declared.syntax.Syntax.{Syntax as TransferSyntax};
ghost use Rattle.operation.specs.Drafts.{syntax_byte};
ghost use Rattle.operation.specs.RecordParts.{ContentRecordParts};
ghost use Rattle.operation.specs.RecordTexts.{FitsText, IsNamed, record_text};

use crate::Digest;
use crate::content_record::ContentRecord;
use crate::kept::Kept;
use crate::value_texts::{put_values, values_of};
use data_set::Syntax;
use std::alloc::{AllocError, Global};
use std::sync::Arc;

/// The 32 bytes at the front of a text, and what stands behind them.
fn digest_in(text: &[u8]) -> Option<(&[u8; 32], &[u8])>
    ensures parts { IfSome result (λ x. text.now ≡ x.0.now ++ x.1.now) }
    ensures long { IfSome result (λ x. length x.0.now ≡ 32) }
    ensures none { (digest rest : List ℕ) → length digest ≡ 32 → text.now ≡ digest ++ rest
        → result ≢ None }
{
    let (digest, rest) = text.split_first_chunk::<32>()?;
    Some((digest, rest))
}

/// How many bytes a data set has, as it is written.
fn number_of(size: usize) -> u64
    ensures same { result ≡ size }
    ensures fits { result < 2 ^ 64 }
{
    size as u64
}

/// The transfer syntax and the size at the front of a text, and what stands behind them.
fn syntax_and_size(text: &[u8]) -> Option<(Syntax, usize, &[u8])>
    ensures parts { IfSome result (λ x.
        text.now ≡ syntax_byte x.0 ∷ (to_be_bytes w64 x.1 ++ x.2.now)) }
    ensures fits { IfSome result (λ x. x.1 < 2 ^ 64) }
    ensures none { (syntax : TransferSyntax) (size : ℕ) (rest : List ℕ)
        → text.now ≡ syntax_byte syntax ∷ (to_be_bytes w64 size ++ rest) → result ≢ None }
{
    match text {
        [syntax, a, b, c, d, e, f, g, h, rest @ ..] => {
            let syntax = match syntax {
                1 => Syntax::Implicit,
                2 => Syntax::Explicit,
                _ => return None,
            };
            let size = u64::from_be_bytes([*a, *b, *c, *d, *e, *f, *g, *h]);
            Some((syntax, size as usize, rest))
        }
        _ => None,
    }
}

impl ContentRecord {
    /// Writes the record behind other bytes, but for its note. So `decode` reads the record of a
    /// content again that is no rejection note.
    pub fn encode(&self, out: &mut Vec<u8>) -> Result<(), AllocError>
        ensures text { OnOk result (out.new.items ≡ out.old.items ++ record_text self.now) }
        ensures fits { OnOk result (FitsText self.now) }
    {
        let syntax = match self.kept.syntax {
            Syntax::Implicit => 1,
            Syntax::Explicit => 2,
        };
        self.digest.see_bytes();
        out.extend_from_slice(self.digest.as_bytes().as_slice())?;
        out.push(syntax)?;
        out.extend_from_slice(&number_of(self.kept.size).to_be_bytes())?;
        put_values(out, &self.kept.values)?;
        Ok(())
    }

    /// The record that bytes spell, of a content that is no rejection note; `None` where they spell
    /// none.
    pub fn decode(alloc: Global, text: &[u8]) -> Result<Option<ContentRecord>, AllocError>
        ensures found { (r : ContentRecordParts) → FitsText r → r.note ≡ None
            → text.now ≡ record_text r → IfOk result (λ found. found ≡ Some r) }
        ensures named { IfOk result (λ found. IfSome found IsNamed) }
    {
        let Some((digest, rest)) = digest_in(text) else {
            return Ok(None);
        };
        let digest = Digest::of(*digest);
        digest.see_bytes();
        let Some((syntax, size, rest)) = syntax_and_size(rest) else {
            return Ok(None);
        };
        let Some(values) = values_of(alloc, rest)? else {
            return Ok(None);
        };
        let kept = Kept {
            syntax,
            size,
            values,
            note: None,
        };
        Ok(Some(ContentRecord {
            digest,
            kept: Arc::new(alloc, kept)?,
        }))
    }
}
