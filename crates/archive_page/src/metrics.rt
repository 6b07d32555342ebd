//! What is counted of a site, in the text format of Prometheus (version 0.0.4).

ghost use Rattle.std.specs.Prelude.{◌≡◌, ◌++◌, IfOk, OnOk};
ghost use Rattle.std.specs.List.{flat_map};
ghost use Rattle.octets.specs.Texts.{same};
ghost use Rattle.archive_page.specs.Metrics.{kind_word, help_byte, label_byte, help_text, label_text, labels_text};
ghost use Rattle.archive_page.specs.Metrics.{head_text, line_text, samples_text, metrics_text};

use crate::characters::text_of;
use octets::{Octets, put_digits};
use std::alloc::{AllocError, Global};

/// Whether a sample only grows while the site runs.
#[derive(Clone, Copy, Debug, PartialEq, Eq)]
pub enum SampleKind {
    Counter,
    Gauge,
}

/// What tells a sample from others of its name.
#[derive(Debug, Drop)]
pub struct Label {
    /// Of letters, digits and `_`.
    pub name: Octets,
    pub value: Octets,
}

/// A number that is told of a running site. Those of one name stand one behind the other.
#[derive(Debug, Drop)]
pub struct Sample {
    /// Of letters, digits, `_` and `:`.
    pub name: Octets,
    /// What it counts.
    pub help: Octets,
    pub kind: SampleKind,
    pub label: Option<Label>,
    pub value: u64,
}

/// The word for a kind.
fn word(kind: SampleKind) -> &'static [u8]
    ensures { result.now ≡ kind_word kind }
{
    match kind {
        SampleKind::Counter => b"counter",
        SampleKind::Gauge => b"gauge",
    }
}

/// Puts a byte of a help line, a backslash and an end of a line each as two.
fn put_help_byte(out: &mut Vec<u8>, byte: u8) -> Result<(), AllocError>
    ensures { OnOk result (out.new.items ≡ out.old.items ++ help_byte byte) }
{
    match byte {
        b'\\' => out.extend_from_slice(b"\\\\"),
        b'\n' => out.extend_from_slice(b"\\n"),
        _ => {
            out.push(byte)?;
            Ok(())
        }
    }
}

/// Puts a byte of a label's value, which stands in quotation marks.
fn put_label_byte(out: &mut Vec<u8>, byte: u8) -> Result<(), AllocError>
    ensures { OnOk result (out.new.items ≡ out.old.items ++ label_byte byte) }
{
    if byte == b'"' {
        return out.extend_from_slice(b"\\\"");
    }
    put_help_byte(out, byte)
}

fn put_help_bytes(out: &mut Vec<u8>, text: &[u8]) -> Result<(), AllocError>
    ensures { OnOk result (out.new.items ≡ out.old.items ++ flat_map help_byte text.now) }
{
    for byte in text {
        put_help_byte(out, *byte)?;
    }
    Ok(())
}

fn put_label_bytes(out: &mut Vec<u8>, text: &[u8]) -> Result<(), AllocError>
    ensures { OnOk result (out.new.items ≡ out.old.items ++ flat_map label_byte text.now) }
{
    for byte in text {
        put_label_byte(out, *byte)?;
    }
    Ok(())
}

/// Puts a label in braces.
#[tactic(auto, unfolding(crate::specs::Metrics::label_text))]
fn put_label(alloc: Global, out: &mut Vec<u8>, label: &Label) -> Result<(), AllocError>
    ensures { OnOk result (out.new.items ≡ out.old.items ++ label_text label.now) }
{
    let value = text_of(alloc, label.value.as_slice())?;
    out.extend_from_slice(b"{")?;
    out.extend_from_slice(label.name.as_slice())?;
    out.extend_from_slice(b"=\"")?;
    put_label_bytes(out, value.as_bytes())?;
    out.extend_from_slice(b"\"}")
}

fn put_labels(alloc: Global, out: &mut Vec<u8>, label: &Option<Label>) -> Result<(), AllocError>
    ensures { OnOk result (out.new.items ≡ out.old.items ++ labels_text label.now) }
{
    match label {
        None => Ok(()),
        Some(label) => put_label(alloc, out, label),
    }
}

fn is(text: &[u8], word: &[u8]) -> bool
    ensures { result ≡ same text.now word.now }
{
    text == word
}

/// Puts the lines of help and type of a sample.
#[tactic(auto, unfolding(crate::specs::Metrics::help_text))]
fn put_help(alloc: Global, out: &mut Vec<u8>, sample: &Sample) -> Result<(), AllocError>
    ensures { OnOk result (out.new.items ≡ out.old.items ++ help_text sample.now) }
{
    let help = text_of(alloc, sample.help.as_slice())?;
    out.extend_from_slice(b"# HELP ")?;
    out.extend_from_slice(sample.name.as_slice())?;
    out.extend_from_slice(b" ")?;
    put_help_bytes(out, help.as_bytes())?;
    out.extend_from_slice(b"\n# TYPE ")?;
    out.extend_from_slice(sample.name.as_slice())?;
    out.extend_from_slice(b" ")?;
    out.extend_from_slice(word(sample.kind))?;
    out.extend_from_slice(b"\n")
}

/// The same, unless the sample before has the same name.
fn put_head(
    alloc: Global,
    out: &mut Vec<u8>,
    before: &[u8],
    sample: &Sample,
) -> Result<(), AllocError>
    ensures { OnOk result (out.new.items ≡ out.old.items ++ head_text before.now sample.now) }
{
    if is(sample.name.as_slice(), before) {
        return Ok(());
    }
    put_help(alloc, out, sample)
}

/// Puts the line of a sample.
#[tactic(auto, unfolding(crate::specs::Metrics::line_text))]
fn put_line(alloc: Global, out: &mut Vec<u8>, sample: &Sample) -> Result<(), AllocError>
    ensures { OnOk result (out.new.items ≡ out.old.items ++ line_text sample.now) }
{
    out.extend_from_slice(sample.name.as_slice())?;
    put_labels(alloc, out, &sample.label)?;
    out.extend_from_slice(b" ")?;
    put_digits(alloc, out, sample.value)?;
    out.extend_from_slice(b"\n")
}

/// Puts the lines of samples, and above the first of each name its help and type.
fn put_samples(alloc: Global, out: &mut Vec<u8>, samples: &[Sample]) -> Result<(), AllocError>
    ensures { OnOk result (out.new.items ≡ out.old.items ++ metrics_text samples.now) }
{
    let mut before: &[u8] = &[];
    for sample in samples {
        put_head(alloc, out, before, sample)?;
        put_line(alloc, out, sample)?;
        before = sample.name.as_slice();
    }
    Ok(())
}

/// The text of some samples.
pub(crate) fn metrics_in_text(alloc: Global, samples: &[Sample]) -> Result<Vec<u8>, AllocError>
    ensures { IfOk result (λ text. text.items ≡ metrics_text samples.now) }
{
    let mut out = Vec::new(alloc);
    put_samples(alloc, &mut out, samples)?;
    Ok(out)
}
