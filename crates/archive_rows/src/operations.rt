//! The operations of rows: contents and corrections.

use crate::text::{RowFault, bytes_of, octets_of, parted, syntax_of, tag_of, target_of};
use bytes::Bytes;
use operation::{Op, OpFault, Stamp, content_of, correction_of};
use std::alloc::Global;

/// `CLASS INSTANCE SYNTAX BYTES`: the content of a data set.
pub fn content_in(alloc: Global, words: &str) -> Result<Result<Op, OpFault>, RowFault> {
    let (class, words) = parted(words);
    let (instance, words) = parted(words);
    let (syntax, words) = parted(words);
    let class = octets_of(alloc, class)?;
    let instance = octets_of(alloc, instance)?;
    let set = Bytes::from_vec(bytes_of(alloc, words)?)?;
    match content_of(alloc, class, instance, syntax_of(syntax), set) {
        Ok(content) => Ok(Ok(Op::Content(content))),
        Err(fault) => Ok(Err(fault)),
    }
}

/// `KIND KEY TAG COUNTER SITE VALUE`: a correction.
pub fn correction_in(alloc: Global, words: &str) -> Result<Result<Op, OpFault>, RowFault> {
    let (kind, words) = parted(words);
    let (key, words) = parted(words);
    let (tag, words) = parted(words);
    let (counter, words) = parted(words);
    let (site, words) = parted(words);
    let tag = tag_of(tag)?;
    let stamp = Stamp {
        counter: counter.parse::<u64>()?,
        site: site.parse::<u16>()?,
    };
    let value = octets_of(alloc, words)?;
    match correction_of(target_of(alloc, kind, key)?, tag, value, stamp) {
        Ok(correction) => Ok(Ok(Op::Correction(correction))),
        Err(fault) => Ok(Err(fault)),
    }
}
