//! Bytes as words, for what a row tells.

use std::alloc::AllocError;
use std::fmt::Display;
use std::str::from_utf8;

/// How often a byte stands at least where it is told with its count.
const LEAST_RUN: usize = 8;

fn is_printed(byte: u8) -> bool {
    (0x20..0x7f).contains(&byte) && byte != b'"'
}

fn is_text(bytes: &[u8]) -> bool {
    bytes.iter().all(|byte| is_printed(*byte))
}

/// How often a byte stands at the front.
fn run_of(bytes: &[u8], first: u8) -> usize {
    bytes.iter().take_while(|byte| **byte == first).count()
}

fn put_digits(out: &mut String, bytes: &[u8]) -> Result<(), AllocError> {
    let mut rest = bytes;
    let mut was_run = false;
    for _ in 0..bytes.len() {
        let [first, behind @ ..] = rest else {
            break;
        };
        let count = run_of(rest, *first);
        let is_run = count >= LEAST_RUN;
        if (is_run || was_run) && rest.len() < bytes.len() {
            out.push(' ')?;
        }
        write!(out, "{first:02x}")?;
        if is_run {
            write!(out, "*{count}")?;
        }
        rest = if is_run {
            rest.get(count..).unwrap_or(&[])
        } else {
            behind
        };
        was_run = is_run;
    }
    Ok(())
}

/// Puts bytes as words: a text of printed characters in quotation marks, else digits, and a byte
/// that stands eight times or more with its count. No byte is `-`.
pub fn put_bytes(out: &mut String, bytes: &[u8]) -> Result<(), AllocError> {
    if bytes.is_empty() {
        return out.push('-');
    }
    match from_utf8(bytes) {
        Ok(text) if is_text(bytes) => write!(out, "\"{text}\""),
        _ => put_digits(out, bytes),
    }
}

/// Puts a fault, with its number.
pub fn put_fault<F: Display + Copy>(
    out: &mut String,
    number: u8,
    fault: F,
) -> Result<(), AllocError> {
    write!(out, "fault {number}: {fault}")
}
