//! The kinds of rows.

use crate::associations::Associations;
use crate::exchanges::Exchanges;
use crate::sites::Sites;
use crate::text::{RowFault, parted};
use std::alloc::{AllocError, Global};

/// What rows work on, a part for each family of kinds that keeps something.
pub struct Rows {
    sites: Sites,
    associations: Associations,
    exchanges: Exchanges,
}

impl Drop for Rows {
    fn drop(self) {
        let Rows {
            sites: _,
            associations: _,
            exchanges: _,
        } = self;
    }
}

impl Rows {
    pub fn new(alloc: Global) -> Result<Rows, AllocError> {
        Ok(Rows {
            sites: Sites::new(alloc),
            associations: Associations::new(alloc)?,
            exchanges: Exchanges::new(alloc),
        })
    }

    /// Puts what a row tells, by the family that has its kind.
    fn put_row(
        &mut self,
        out: &mut String,
        kind: &str,
        words: &str,
    ) -> Option<Result<(), RowFault>> {
        self.sites
            .put_row(out, kind, words)
            .or_else(|| self.associations.put_row(out, kind, words))
            .or_else(|| self.exchanges.put_row(out, kind, words))
    }

    /// Puts what a row tells, a kind and its words, or a comment.
    pub fn put(&mut self, out: &mut String, line: &str) -> Result<(), AllocError> {
        if line.is_empty() || line.starts_with('#') {
            return out.push_str(line);
        }
        let (kind, words) = parted(line);
        match self.put_row(out, kind, words) {
            Some(Ok(())) => Ok(()),
            Some(Err(fault)) => {
                out.clear();
                write!(out, "{fault}")
            }
            None => out.push_str("no kind of rows"),
        }
    }
}
