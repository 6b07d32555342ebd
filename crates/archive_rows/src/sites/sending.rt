//! Rows of what is sent.

use crate::sites::names::{level_of, view_of};
use crate::text::{RowFault, octets_of, parted, put_bytes};
use archive_query::{Accepted, Accepts, Selection, Sending, get};
use data_set::Syntax;
use dictionary::CT_IMAGE_STORAGE;
use octets::{ListOf, Octets};
use site_state::WholeSite;
use std::alloc::{AllocError, Global};

/// What is accepted of CT Image Storage: entries such as i, e or ie, parted by commas.
fn accepts_of(alloc: Global, word: &str) -> Result<Accepts, AllocError> {
    let mut list = ListOf::new(alloc);
    for entry in word.split(',') {
        list.push(Accepted {
            class: Octets::from_slice(alloc, CT_IMAGE_STORAGE.as_slice())?,
            implicit: entry.contains('i'),
            explicit: entry.contains('e'),
        })?;
    }
    Ok(Accepts { list })
}

/// The UIDs that words name.
fn uids_of(alloc: Global, words: &str) -> Result<ListOf<Octets>, RowFault> {
    let mut uids = ListOf::new(alloc);
    for word in words.split_whitespace() {
        uids.push(octets_of(alloc, word)?)?;
    }
    Ok(uids)
}

/// `LEVEL STUDY SERIES UID..`
fn selection_of(alloc: Global, words: &str) -> Result<Selection, RowFault> {
    let (level, words) = parted(words);
    let (study, words) = parted(words);
    let (series, words) = parted(words);
    Ok(Selection {
        level: level_of(level),
        study: octets_of(alloc, study)?,
        series: octets_of(alloc, series)?,
        uids: uids_of(alloc, words)?,
    })
}

fn put_sending(out: &mut String, sending: &Sending) -> Result<(), AllocError> {
    out.push_str("send ")?;
    put_bytes(out, sending.instance.as_slice())?;
    out.push_str(" of class ")?;
    put_bytes(out, sending.class.as_slice())?;
    match &sending.body {
        None => out.push_str("\n  without a data set\n"),
        Some((syntax, body)) => {
            let syntax = match syntax {
                Syntax::Implicit => "implicit",
                Syntax::Explicit => "explicit",
            };
            write!(out, "\n  {syntax} ")?;
            put_bytes(out, body.as_slice())?;
            out.push('\n')
        }
    }
}

fn put_sendings(out: &mut String, sendings: &[Sending]) -> Result<(), AllocError> {
    for sending in sendings {
        put_sending(out, sending)?;
    }
    let count = sendings.len();
    write!(out, "end {count}")
}

/// `get VIEW ACCEPTS LEVEL STUDY SERIES UID..`: what a site sends.
pub fn put_get(
    alloc: Global,
    out: &mut String,
    site: &WholeSite,
    words: &str,
) -> Result<(), RowFault> {
    let (view, words) = parted(words);
    let (accepts, words) = parted(words);
    let (view, _called) = view_of(view);
    let accepts = accepts_of(alloc, accepts)?;
    let selection = selection_of(alloc, words)?;
    let sendings = get(alloc, site, view, &selection, &accepts)?;
    Ok(put_sendings(out, sendings.as_slice())?)
}
