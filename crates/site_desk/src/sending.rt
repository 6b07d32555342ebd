//! What a running site is sent: a correction for its desk, and what asks for a page.

ghost use Rattle.std.specs.Prelude.{◌≡◌, ℕ, List, ◌++◌, IfOk, OnOk, IsUtf8};
ghost use Rattle.json.specs.Lex.{tokens};
ghost use Rattle.site_desk.specs.Sending.{said, member_of, correction_object, length_fields, post_text};
ghost use Rattle.site_desk.specs.Sending.{target_of, get_text, IsBodyOf};

use json::Writer;
use octets::put_digits;
use std::alloc::{AllocError, Global};

/// The four words of a correction, as `archive correct` has them.
#[derive(Clone, Copy, Debug)]
pub struct FourWords<'a> {
    pub target: &'a str,
    pub key: &'a str,
    pub tag: &'a str,
    pub value: &'a str,
}

/// Writes a text as a member of an object.
#[tactic(auto, unfolding(crate::specs::Sending::member_of))]
fn put_member(writer: &mut Writer, name: &str, text: &str) -> Result<(), AllocError>
    ensures written { OnOk result (writer.new.tokens
        ≡ writer.old.tokens ++ member_of name.now text.now) }
    ensures kept { writer.new.before ≡ writer.old.before }
{
    writer.key(name)?;
    writer.string(text)
}

/// Writes four words as an object.
#[tactic(auto, unfolding(crate::specs::Sending::correction_object))]
fn put_correction(writer: &mut Writer, four: FourWords<'_>) -> Result<(), AllocError>
    ensures written { OnOk result (writer.new.tokens
        ≡ writer.old.tokens ++ correction_object (said four.entry)) }
    ensures kept { writer.new.before ≡ writer.old.before }
{
    writer.begin_object()?;
    put_member(writer, "target", four.target)?;
    put_member(writer, "key", four.key)?;
    put_member(writer, "tag", four.tag)?;
    put_member(writer, "value", four.value)?;
    writer.end_object()
}

/// Four words as an object of JSON.
fn correction_body(alloc: Global, four: FourWords<'_>) -> Result<Vec<u8>, AllocError>
    ensures utf8 { IfOk result (λ body. IsUtf8 body.items) }
    ensures object { IfOk result (λ body. tokens body.items ≡ correction_object (said four.entry)) }
{
    let mut writer = Writer::new(Vec::new(alloc));
    put_correction(&mut writer, four)?;
    Ok(writer.into_inner())
}

/// Puts what says of a body that it is JSON and how long it is, and the end of the head.
#[tactic(auto, unfolding(crate::specs::Sending::length_fields))]
fn put_length(alloc: Global, text: &mut Vec<u8>, length: usize) -> Result<(), AllocError>
    ensures { OnOk result (text.new.items ≡ text.old.items ++ length_fields length) }
{
    text.extend_from_slice(b"\r\ncontent-type: application/json\r\ncontent-length: ")?;
    put_digits(alloc, text, length as u64)?;
    text.extend_from_slice(b"\r\n\r\n")
}

/// The request that posts a body to the desk at an address.
#[tactic(auto, unfolding(crate::specs::Sending::post_text))]
fn posting_of(alloc: Global, address: &str, body: &[u8]) -> Result<Vec<u8>, AllocError>
    ensures { IfOk result (λ text. text.items ≡ post_text address.now body.now) }
{
    let mut text = Vec::from_slice(
        alloc,
        b"POST /correct HTTP/1.1\r\nconnection: close\r\nhost: ",
    )?;
    text.extend_from_slice(address.as_bytes())?;
    put_length(alloc, &mut text, body.len())?;
    text.extend_from_slice(body)?;
    Ok(text)
}

/// The request that posts four words to the desk at an address, which reads these of it.
pub fn correction_request(
    alloc: Global,
    address: &str,
    four: FourWords<'_>,
) -> Result<Vec<u8>, AllocError>
    ensures { IfOk result (λ text. (body : List ℕ) × IsBodyOf (said four.entry) body
        × (text.items ≡ post_text address.now body)) }
{
    let body = correction_body(alloc, four)?;
    let text = posting_of(alloc, address, body.as_slice())?;
    Ok(text)
}

/// Puts a path, and the number of a page behind it.
#[tactic(auto, unfolding(crate::specs::Sending::target_of))]
fn put_target(alloc: Global, text: &mut Vec<u8>, path: &[u8], page: u64) -> Result<(), AllocError>
    ensures { OnOk result (text.new.items ≡ text.old.items ++ target_of path.now page) }
{
    text.extend_from_slice(path)?;
    text.extend_from_slice(b"?page=")?;
    put_digits(alloc, text, page)
}

/// The request for the page of a number at a path of an address.
#[tactic(auto, unfolding(crate::specs::Sending::get_text))]
pub fn page_request(
    alloc: Global,
    address: &str,
    path: &[u8],
    page: u64,
) -> Result<Vec<u8>, AllocError>
    ensures { IfOk result (λ text. text.items ≡ get_text address.now path.now page) }
{
    let mut text = Vec::from_slice(alloc, b"GET ")?;
    put_target(alloc, &mut text, path, page)?;
    text.extend_from_slice(b" HTTP/1.1\r\nconnection: close\r\nhost: ")?;
    text.extend_from_slice(address.as_bytes())?;
    text.extend_from_slice(b"\r\n\r\n")?;
    Ok(text)
}
