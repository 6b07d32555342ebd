//! Rows of queries: what is found.

use crate::sites::names::view_of;
use crate::text::{RowFault, bytes_of, parted, put_bytes, put_fault};
use archive_query::{Answer, Query, find};
use data_set::{DataSet, Element, SetFault, Syntax, read};
use site_state::Site;
use std::alloc::{AllocError, Global};

fn put_bad_set(out: &mut String, fault: SetFault) -> Result<(), AllocError> {
    out.push_str("no data set: ")?;
    put_fault(out, fault.number(), fault)
}

fn put_element(out: &mut String, element: &Element) -> Result<(), AllocError> {
    let tag = element.tag();
    write!(out, "\n  {tag:08x} ")?;
    if let Some(vr) = element.vr() {
        put_bytes(out, &vr)?;
        out.push(' ')?;
    }
    match (element.stored(), element.items()) {
        (Some(value), _) => put_bytes(out, value),
        (_, Some(items)) => {
            let count = items.len();
            write!(out, "{count} items")
        }
        _ => out.push_str("nothing"),
    }
}

fn put_set(out: &mut String, set: &DataSet) -> Result<(), AllocError> {
    out.push_str("row")?;
    for element in set.elements() {
        put_element(out, element)?;
    }
    out.push('\n')
}

fn put_rows(alloc: Global, out: &mut String, rows: &[Answer]) -> Result<(), AllocError> {
    for row in rows {
        put_set(out, &row.to_set(alloc)?)?;
    }
    let count = rows.len();
    write!(out, "end {count}")
}

/// Puts what a site answers to a query.
fn put_answers(
    alloc: Global,
    out: &mut String,
    site: &Site,
    view: &str,
    query: &Query,
) -> Result<(), AllocError> {
    let (view, called) = view_of(view);
    if query.partial() {
        out.push_str("partial\n")?;
    }
    let rows = find(alloc, site, view, called, query)?.into_vec(alloc)?;
    put_rows(alloc, out, rows.as_slice())
}

/// Puts the same of an identifier.
fn put_query(
    alloc: Global,
    out: &mut String,
    site: &Site,
    view: &str,
    set: &DataSet,
) -> Result<(), AllocError> {
    match Query::read(alloc, set) {
        Ok(query) => put_answers(alloc, out, site, view, &query),
        Err(fault) => put_fault(out, fault.number(), fault),
    }
}

/// `find VIEW BYTES`: what a site answers to an identifier in Implicit VR Little Endian.
pub fn put_find(alloc: Global, out: &mut String, site: &Site, words: &str) -> Result<(), RowFault> {
    let (view, words) = parted(words);
    let identifier = bytes_of(alloc, words)?;
    match read(alloc, Syntax::Implicit, identifier.as_slice()) {
        Ok(set) => Ok(put_query(alloc, out, site, view, &set)?),
        Err(fault) => Ok(put_bad_set(out, fault)?),
    }
}
