//! Rows of associations: what the peer sends in, what is written and done out.

mod ports;
mod runs;
pub mod words;

use crate::text::{RowFault, byte_of, number_of, parted};
use ports::{Refusal, Unloaded};
use runs::{Setting, put_run};
use std::alloc::{AllocError, Global};
use words::{Words, pdu_of, values_of};

/// The words that rows gave, and what an association meets.
pub struct Associations {
    alloc: Global,
    words: Words,
    setting: Setting,
}

impl Drop for Associations {
    fn drop(self) {
        let Associations {
            alloc: _,
            words: _,
            setting: _,
        } = self;
    }
}

impl Associations {
    pub fn new(alloc: Global) -> Result<Associations, AllocError> {
        Ok(Associations {
            alloc,
            words: Words::new(alloc),
            setting: Setting::new(alloc)?,
        })
    }

    fn put_given(&mut self, out: &mut String, name: &str, bytes: Vec<u8>) -> Result<(), RowFault> {
        let size = bytes.len();
        self.words.give(name, bytes)?;
        Ok(write!(out, "{name}: {size} bytes")?)
    }

    /// `word NAME BYTES`: a word for bytes.
    fn put_word(&mut self, out: &mut String, words: &str) -> Result<(), RowFault> {
        let (name, words) = parted(words);
        let bytes = self.words.bytes_of(words)?;
        self.put_given(out, name, bytes)
    }

    /// `pdu NAME TYPE BYTES`: a word for a PDU with this body.
    fn put_pdu(&mut self, out: &mut String, words: &str) -> Result<(), RowFault> {
        let (name, words) = parted(words);
        let (code, words) = parted(words);
        let code = byte_of(code)?;
        let body = self.words.bytes_of(words)?;
        let pdu = pdu_of(self.alloc, code, body.as_slice())?;
        self.put_given(out, name, pdu)
    }

    /// `values NAME CONTEXT command|data SIZE BYTES`: a word for P-DATA-TFs of one value each, with
    /// fragments of so many bytes.
    fn put_values(&mut self, out: &mut String, words: &str) -> Result<(), RowFault> {
        let (name, words) = parted(words);
        let (context, words) = parted(words);
        let (of, words) = parted(words);
        let (size, words) = parted(words);
        let context = byte_of(context)?;
        let size = number_of(size)? as usize;
        let text = self.words.bytes_of(words)?;
        let values = values_of(self.alloc, context, of == "command", size, text.as_slice())?;
        self.put_given(out, name, values)
    }

    /// `port site|memory|busy|shelf|first-load|loads`: a site; a port that refuses with this fault;
    /// or a site whose shelf does not bring what is loaded first, or what is loaded at all.
    fn put_port(&mut self, out: &mut String, word: &str) -> Result<(), RowFault> {
        let (refusal, unloaded) = match word {
            "site" => (None, None),
            "memory" => (Some(Refusal::Memory), None),
            "busy" => (Some(Refusal::Busy), None),
            "shelf" => (Some(Refusal::Shelf), None),
            "first-load" => (None, Some(Unloaded::First)),
            "loads" => (None, Some(Unloaded::All)),
            _ => return Err(RowFault::BadWord),
        };
        self.setting.refusal = refusal;
        self.setting.unloaded = unloaded;
        Ok(out.push_str("a port")?)
    }

    /// `before BYTES`: what an earlier peer has sent, in each run from here on.
    fn put_before(&mut self, out: &mut String, words: &str) -> Result<(), RowFault> {
        let before = self.words.bytes_of(words)?;
        let size = before.len();
        self.setting.before = before;
        Ok(write!(out, "{size} bytes before")?)
    }

    /// `run BYTES`: what the peer sends.
    fn put_run(&self, out: &mut String, words: &str) -> Result<(), RowFault> {
        let input = self.words.bytes_of(words)?;
        Ok(put_run(
            self.alloc,
            out,
            &self.setting,
            &self.words,
            input.as_slice(),
        )?)
    }

    /// Puts what a row of one of these kinds tells.
    pub fn put_row(
        &mut self,
        out: &mut String,
        kind: &str,
        words: &str,
    ) -> Option<Result<(), RowFault>> {
        match kind {
            "word" => Some(self.put_word(out, words)),
            "pdu" => Some(self.put_pdu(out, words)),
            "values" => Some(self.put_values(out, words)),
            "port" => Some(self.put_port(out, words)),
            "before" => Some(self.put_before(out, words)),
            "run" => Some(self.put_run(out, words)),
            _ => None,
        }
    }
}
