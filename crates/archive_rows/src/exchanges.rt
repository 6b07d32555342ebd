//! Rows of exchanges of two sites: what a side hears in, what it says and holds out.

mod frames;
mod pair;
mod runs;

use crate::associations::words::Words;
use crate::text::{RowFault, number_of, parted};
use exchange::Role;
use pair::{Pair, put_take};
use runs::{Way, put_run};
use std::alloc::Global;

/// The words that rows gave, two sites, and how the devices of a side are read and written.
pub struct Exchanges {
    alloc: Global,
    words: Words,
    pair: Pair,
    way: Way,
}

impl Drop for Exchanges {
    fn drop(self) {
        let Exchanges {
            alloc: _,
            words: _,
            pair: _,
            way: _,
        } = self;
    }
}

fn role_of(word: &str) -> Result<Role, RowFault> {
    match word {
        "caller" => Ok(Role::Caller),
        "callee" => Ok(Role::Callee),
        "old-caller" => Ok(Role::OldCaller),
        _ => Err(RowFault::BadWord),
    }
}

impl Exchanges {
    pub fn new(alloc: Global) -> Exchanges {
        Exchanges {
            alloc,
            words: Words::new(alloc),
            pair: Pair::new(alloc),
            way: Way::WHOLE,
        }
    }

    /// `text NAME BYTES`: a word for bytes, such as those of an operation or of a frame.
    fn put_text(&mut self, out: &mut String, words: &str) -> Result<(), RowFault> {
        let (name, words) = parted(words);
        let bytes = self.words.bytes_of(words)?;
        let size = bytes.len();
        self.words.give(name, bytes)?;
        Ok(write!(out, "{name}: {size} bytes")?)
    }

    /// `sites`: both hold nothing from here on.
    fn put_sites(&mut self, out: &mut String) -> Result<(), RowFault> {
        self.pair = Pair::new(self.alloc);
        Ok(out.push_str("two sites")?)
    }

    /// `takes SITE BYTES`: a site takes an operation.
    fn put_take(&mut self, out: &mut String, words: &str) -> Result<(), RowFault> {
        let (name, words) = parted(words);
        let text = self.words.bytes_of(words)?;
        put_take(self.alloc, out, self.pair.site_mut(name), text.as_slice())
    }

    /// `devices PIECE FAILING ROOM`: in the runs from here on a read gives so many bytes at most,
    /// the read of that number fails, or none for 0, and there is room for so many bytes.
    fn put_devices(&mut self, out: &mut String, words: &str) -> Result<(), RowFault> {
        let (piece, words) = parted(words);
        let (failing, room) = parted(words);
        self.way = Way::of(number_of(piece)?, number_of(failing)?, number_of(room)?);
        Ok(out.push_str("devices")?)
    }

    /// `exchange ROLE SITE BYTES`: what a side says for what it hears; the site stays as it was.
    fn put_run(&self, out: &mut String, words: &str) -> Result<(), RowFault> {
        let (role, words) = parted(words);
        let (name, words) = parted(words);
        let role = role_of(role)?;
        let input = self.words.bytes_of(words)?;
        let site = self.pair.site(name);
        put_run(
            self.alloc,
            out,
            &self.words,
            role,
            site,
            input.as_slice(),
            self.way,
        )
    }

    /// Puts what a row of one of these kinds tells.
    pub fn put_row(
        &mut self,
        out: &mut String,
        kind: &str,
        words: &str,
    ) -> Option<Result<(), RowFault>> {
        match kind {
            "text" => Some(self.put_text(out, words)),
            "sites" => Some(self.put_sites(out)),
            "takes" => Some(self.put_take(out, words)),
            "devices" => Some(self.put_devices(out, words)),
            "exchange" => Some(self.put_run(out, words)),
            _ => None,
        }
    }
}
