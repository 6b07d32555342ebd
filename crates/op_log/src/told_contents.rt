//! Contents that are told, each under its digest.

ghost use Rattle.std.specs.Prelude.{◌≡◌, ◌++◌, ◌∷◌, [], List, None, IfOk, IfSome, OnOk};
ghost use Rattle.octets.specs.Members.{Has};
ghost use Rattle.operation.specs.Parts.{ContentParts};
ghost use Rattle.op_log.specs.Readable.{IsTableOf};

use indexmap::IndexMap;
use operation::Digest;
use records::RecordedContent;
use std::alloc::{AllocError, Global};

/// Contents, each under its digest: of two that have one digest the first.
pub(crate) struct ToldContents {
    table: IndexMap<[u8; 32], RecordedContent>,
}

// It is written out, so that a caller does not prove again how each part is dropped.
impl Drop for ToldContents {
    fn drop(self) {
        let ToldContents { table } = self;
        drop(table);
    }
}

impl ToldContents {
    /// The table of some contents.
    pub(crate) fn of(alloc: Global, told: &[RecordedContent]) -> Result<ToldContents, AllocError>
        ensures { IfOk result (λ contents. IsTableOf told.now contents.table.entries) }
    {
        let mut contents = ToldContents {
            table: IndexMap::new(alloc),
        };
        'contents: for content in told {
            contents.add(content)?;
        }
        Ok(contents)
    }

    /// Takes a content, unless one with its digest is there.
    fn add(&mut self, content: &RecordedContent) -> Result<(), AllocError>
        ensures { OnOk result ((told : List ContentParts) → IsTableOf told self.old.table.entries
            → IsTableOf (told ++ content.now ∷ []) self.new.table.entries) }
    {
        let digest = content.digest();
        if let Some(_earlier) = self.find(digest) {
            return Ok(());
        }
        self.table.insert(*digest.as_bytes(), content.copy()?)?;
        Ok(())
    }

    /// The content with a digest.
    pub(crate) fn find(&self, digest: &Digest) -> Option<&RecordedContent>
        ensures found { IfSome result (λ c. Has self.now.table.entries (digest.now, c.now)) }
        ensures none { result ≡ None → (c : ContentParts)
            → ¬ Has self.now.table.entries (digest.now, c) }
    {
        self.table.get(digest.as_bytes())
    }
}
