//! Bytes and numbers from the words of a row.

use crate::text::RowFault;
use hex::decode;
use std::alloc::Global;

/// A number in decimal digits.
pub fn number_of(word: &str) -> Result<u32, RowFault> {
    Ok(word.parse::<u32>()?)
}

/// Puts the bytes of a text, whose other quotation mark ends it.
fn put_text(bytes: &mut Vec<u8>, text: &str) -> Result<(), RowFault> {
    let text = text.strip_suffix('"').ok_or(RowFault::BadWord)?;
    bytes.extend_from_slice(text.as_bytes())?;
    Ok(())
}

fn put_many(alloc: Global, bytes: &mut Vec<u8>, byte: &str, count: &str) -> Result<(), RowFault> {
    let byte = u8::from_str_radix(byte, 16)?;
    let many = vec![in alloc; byte; count.parse::<usize>()?]?;
    bytes.extend_from_slice(many.as_slice())?;
    Ok(())
}

fn put_word(alloc: Global, bytes: &mut Vec<u8>, word: &str) -> Result<(), RowFault> {
    if let Some(text) = word.strip_prefix('"') {
        return put_text(bytes, text);
    }
    if let Some((byte, count)) = word.split_once('*') {
        return put_many(alloc, bytes, byte, count);
    }
    let digits = decode(alloc, word)?;
    bytes.extend_from_slice(digits.as_slice())?;
    Ok(())
}

/// The bytes that words spell, one behind the other.
pub fn bytes_of(alloc: Global, words: &str) -> Result<Vec<u8>, RowFault> {
    let mut bytes = Vec::new(alloc);
    for word in words.split_whitespace() {
        put_word(alloc, &mut bytes, word)?;
    }
    Ok(bytes)
}
