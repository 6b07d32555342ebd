//! The words of rows: bytes, and what they name.
//!
//! A row has bytes as words: a text without spaces in quotation marks, `"1.2.840"`; a byte and
//! how often it stands, `00*32`; or hexadecimal digits, `0400ff`.

mod fault;
mod names;
mod reading;
mod writing;

pub use fault::RowFault;
pub use names::{byte_of, octets_of, parted, syntax_of, tag_of, target_of};
pub use reading::{bytes_of, number_of};
pub use writing::{put_bytes, put_fault};
