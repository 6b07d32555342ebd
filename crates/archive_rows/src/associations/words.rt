//! Words that rows give to bytes, and bytes that are told by these words.

use crate::text::{RowFault, bytes_of, number_of, put_bytes};
use std::alloc::{AllocError, Global};

/// The largest fragment whose length with its value's header has four bytes.
const MOST: usize = 0xffff;

/// A word, and the bytes that it stands for.
#[derive(Drop)]
struct Word {
    name: String,
    bytes: Vec<u8>,
}

/// The words that rows gave.
pub struct Words {
    alloc: Global,
    list: Vec<Word>,
}

impl Drop for Words {
    fn drop(self) {
        let Words { alloc: _, list: _ } = self;
    }
}

/// Puts a length in four bytes, high byte first.
fn put_length(out: &mut Vec<u8>, length: usize) -> Result<(), AllocError> {
    let [_, _, _, _, a, b, c, d] = (length as u64).to_be_bytes();
    out.extend_from_slice(&[a, b, c, d])
}

/// A PDU of this type with this body (PS3.8, section 9.3.1).
pub fn pdu_of(alloc: Global, code: u8, body: &[u8]) -> Result<Vec<u8>, AllocError> {
    let mut out = Vec::new(alloc);
    out.extend_from_slice(&[code, 0])?;
    put_length(&mut out, body.len())?;
    out.extend_from_slice(body)?;
    Ok(out)
}

/// A P-DATA-TF with one value (PS3.8, section 9.3.5.1).
fn value_of(
    alloc: Global,
    context: u8,
    control: u8,
    fragment: &[u8],
) -> Result<Vec<u8>, AllocError> {
    let mut body = Vec::new(alloc);
    put_length(&mut body, fragment.len().saturating_add(2))?;
    body.extend_from_slice(&[context, control])?;
    body.extend_from_slice(fragment)?;
    pdu_of(alloc, 4, body.as_slice())
}

/// A text in P-DATA-TFs of one value each, with fragments of `size` bytes.
pub fn values_of(
    alloc: Global,
    context: u8,
    is_command: bool,
    size: usize,
    text: &[u8],
) -> Result<Vec<u8>, AllocError> {
    let more = u8::from(is_command);
    let mut out = Vec::new(alloc);
    let mut left = text.len();
    for fragment in text.chunks(size.clamp(1, MOST)) {
        left = left.saturating_sub(fragment.len());
        let control = if left == 0 { more | 2 } else { more };
        let value = value_of(alloc, context, control, fragment)?;
        out.extend_from_slice(value.as_slice())?;
    }
    Ok(out)
}

/// The PDU at the front of some bytes, or all of them where it is not whole.
fn pdu_at(bytes: &[u8]) -> &[u8] {
    let Some([_, _, a, b, c, d]) = bytes.first_chunk::<6>() else {
        return bytes;
    };
    let size = u32::from_be_bytes([*a, *b, *c, *d]) as usize;
    bytes.get(..size.saturating_add(6)).unwrap_or(bytes)
}

impl Words {
    pub fn new(alloc: Global) -> Words {
        Words {
            alloc,
            list: Vec::new(alloc),
        }
    }

    /// Gives a name to bytes.
    pub fn give(&mut self, name: &str, bytes: Vec<u8>) -> Result<(), AllocError> {
        let name = String::from_str(self.alloc, name)?;
        self.list.push(Word { name, bytes })?;
        Ok(())
    }

    /// Puts the bytes of a word, and says whether there is one.
    fn put_given(&self, out: &mut Vec<u8>, name: &str, count: u32) -> Result<bool, AllocError> {
        for word in &self.list {
            if word.name.as_str() == name {
                for _ in 0..count {
                    out.extend_from_slice(word.bytes.as_slice())?;
                }
                return Ok(true);
            }
        }
        Ok(false)
    }

    /// Puts the bytes of one word: a given one, a given one so many times, or one of all rows.
    fn put_word(&self, out: &mut Vec<u8>, word: &str) -> Result<(), RowFault> {
        if self.put_given(out, word, 1)? {
            return Ok(());
        }
        let (name, count) = word.split_once('*').unwrap_or((word, "1"));
        let count = number_of(count).unwrap_or(1);
        if self.put_given(out, name, count)? {
            return Ok(());
        }
        let bytes = bytes_of(self.alloc, word)?;
        out.extend_from_slice(bytes.as_slice())?;
        Ok(())
    }

    /// The bytes that words stand for, one behind the other.
    pub fn bytes_of(&self, words: &str) -> Result<Vec<u8>, RowFault> {
        let mut bytes = Vec::new(self.alloc);
        for word in words.split_whitespace() {
            self.put_word(&mut bytes, word)?;
        }
        Ok(bytes)
    }

    /// Puts the name of the longest word that stands at the front, and answers its length, which is
    /// 0 where none does.
    pub fn put_name(&self, out: &mut String, bytes: &[u8]) -> Result<usize, AllocError> {
        let mut size = 0;
        let mut name = "";
        for word in &self.list {
            if word.bytes.len() > size && bytes.starts_with(word.bytes.as_slice()) {
                size = word.bytes.len();
                name = word.name.as_str();
            }
        }
        out.push_str(name)?;
        Ok(size)
    }

    /// Puts what stands at the front: a word, or else a PDU in the words of all rows.
    fn put_front(&self, out: &mut String, bytes: &[u8]) -> Result<usize, AllocError> {
        let size = self.put_name(out, bytes)?;
        if size > 0 {
            return Ok(size);
        }
        let pdu = pdu_at(bytes);
        put_bytes(out, pdu)?;
        Ok(pdu.len())
    }

    /// Puts bytes as words, and nothing as `nothing`.
    pub fn put_told(&self, out: &mut String, bytes: &[u8]) -> Result<(), AllocError> {
        if bytes.is_empty() {
            return out.push_str("nothing");
        }
        let mut rest = bytes;
        for _ in 0..bytes.len() {
            if rest.is_empty() {
                break;
            }
            if rest.len() < bytes.len() {
                out.push(' ')?;
            }
            let size = self.put_front(out, rest)?;
            rest = rest.get(size..).unwrap_or(&[]);
        }
        Ok(())
    }
}
