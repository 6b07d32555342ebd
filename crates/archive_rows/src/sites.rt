//! Rows of sites: what a site finds and sends; runs of a world; and what numbers come to.

mod finding;
mod joining;
mod names;
mod running;
mod sending;

use crate::operations::{content_in, correction_in};
use crate::text::{RowFault, put_fault};
use finding::put_find;
use joining::put_folded;
use operation::{Op, OpFault};
use running::put_world;
use sending::put_get;
use site_state::WholeSite;
use std::alloc::Global;

/// A site.
pub struct Sites {
    alloc: Global,
    site: WholeSite,
}

impl Drop for Sites {
    fn drop(self) {
        let Sites { alloc: _, site: _ } = self;
    }
}

impl Sites {
    pub fn new(alloc: Global) -> Sites {
        Sites {
            alloc,
            site: WholeSite::new(alloc),
        }
    }

    /// `site`: a new one.
    fn put_new(&mut self, out: &mut String) -> Result<(), RowFault> {
        self.site = WholeSite::new(self.alloc);
        Ok(out.push_str("a new site")?)
    }

    /// Has the site take an operation.
    fn put_take(&mut self, out: &mut String, op: Result<Op, OpFault>) -> Result<(), RowFault> {
        match op {
            Ok(op) => match self.site.take(op) {
                Ok(taken) => Ok(write!(out, "taken: {taken:?}")?),
                Err(fault) => Ok(write!(out, "not taken: {fault}")?),
            },
            Err(fault) => {
                out.push_str("no operation: ")?;
                Ok(put_fault(out, fault.number(), fault)?)
            }
        }
    }

    /// `take CLASS INSTANCE SYNTAX BYTES`: a content is taken.
    fn put_content(&mut self, out: &mut String, words: &str) -> Result<(), RowFault> {
        let content = content_in(self.alloc, words)?;
        self.put_take(out, content)
    }

    /// `correct KIND KEY TAG COUNTER SITE VALUE`: a correction is taken.
    fn put_correction(&mut self, out: &mut String, words: &str) -> Result<(), RowFault> {
        let correction = correction_in(self.alloc, words)?;
        self.put_take(out, correction)
    }

    /// Puts what a row of one of these kinds tells.
    pub fn put_row(
        &mut self,
        out: &mut String,
        kind: &str,
        words: &str,
    ) -> Option<Result<(), RowFault>> {
        let alloc = self.alloc;
        match kind {
            "site" => Some(self.put_new(out)),
            "take" => Some(self.put_content(out, words)),
            "correct" => Some(self.put_correction(out, words)),
            "find" => Some(put_find(alloc, out, self.site.site(), words)),
            "get" => Some(put_get(alloc, out, &self.site, words)),
            "world" => Some(put_world(alloc, out, &self.site, words)),
            "folded" => Some(put_folded(alloc, out, words)),
            _ => None,
        }
    }
}
