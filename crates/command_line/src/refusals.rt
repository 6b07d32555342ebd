//! The forms of values, and the words in which one that has not its form is refused.

use crate::rows::{Form, Row};
use clap::ArgMatches;
use clap::error::ErrorKind;
use command_words::read_network;
use std::net::SocketAddrV4;

/// Why words of another form than an answer has are refused.
#[derive(Clone, Copy)]
pub(crate) struct Refusal {
    pub kind: ErrorKind,
    pub text: &'static str,
}

pub(crate) const BAD_LISTEN: &str =
    "--listen wants an IPv4 address, a colon and a port, such as 127.0.0.1:11112";

pub(crate) const BAD_EXCHANGE: &str =
    "--exchange wants an IPv4 address, a colon and a port, such as 127.0.0.1:11113";

pub(crate) const BAD_PAGE: &str =
    "--page wants an IPv4 address, a colon and a port, such as 127.0.0.1:11180";

pub(crate) const BAD_DESK: &str =
    "--desk wants an IPv4 address, a colon and a port, such as 127.0.0.1:11181";

pub(crate) const BAD_PEER: &str =
    "--peer wants an IPv4 address, a colon and a port, such as 127.0.0.1:11113";

pub(crate) const BAD_AT: &str =
    "--at wants an IPv4 address, a colon and a port, such as 127.0.0.1:11181";

pub(crate) const BAD_NETWORK: Refusal = Refusal {
    kind: ErrorKind::InvalidValue,
    text: "--allow, --exchange-allow, --page-allow and --desk-allow want an IPv4 address, or one \
        with a slash and how many bits count",
};

const BAD_TITLE: Refusal = Refusal {
    kind: ErrorKind::InvalidValue,
    text: "--calling, --quality-calling and --audit-calling want 1 to 16 printable ASCII \
        characters, no backslash and no outer space",
};

const BAD_NAME: Refusal = Refusal {
    kind: ErrorKind::InvalidValue,
    text: "--name wants 1 to 253 letters, digits, hyphens and dots",
};

pub(crate) const BAD_FORM: Refusal = Refusal {
    kind: ErrorKind::InvalidValue,
    text: "TARGET is study, patient or series, and TAG eight hexadecimal digits",
};

pub(crate) const TOO_MANY: Refusal = Refusal {
    kind: ErrorKind::InvalidValue,
    text: "--workers, --exchange-workers, the peers, the page and the desk are 64 at most together",
};

pub(crate) const BAD_SITE: Refusal = Refusal {
    kind: ErrorKind::InvalidValue,
    text: "--desk wants --site, a number from 1 to 65535",
};

pub(crate) const OPEN_EXCHANGE: Refusal = Refusal {
    kind: ErrorKind::InvalidValue,
    text: "--exchange wants --exchange-allow, unless its address begins with 127.",
};

pub(crate) const WITHOUT_COMMAND: Refusal = Refusal {
    kind: ErrorKind::MissingSubcommand,
    text: "a command has to be named",
};

/// Whether a word is an IPv4 address, a colon and a port.
fn is_address(text: &str) -> bool {
    text.parse::<SocketAddrV4>().is_ok()
}

/// Whether a byte may stand in an AE title: one of ASCII, no control byte and no backslash.
fn is_in_title(byte: u8) -> bool {
    b' ' <= byte && byte <= b'~' && byte != b'\\'
}

/// Whether a word is an AE title: 1 to 16 bytes of ASCII, without control bytes, backslashes and
/// outer spaces, and no more (PS3.5, section 6.2).
fn is_title(text: &str) -> bool {
    let bytes = text.as_bytes();
    1 <= bytes.len()
        && bytes.len() <= 16
        && bytes.iter().all(|byte| is_in_title(*byte))
        && bytes.first() != Some(&b' ')
        && bytes.last() != Some(&b' ')
}

/// Whether a byte may stand in the name of a host (RFC 1123, section 2.1).
fn is_in_name(byte: u8) -> bool {
    byte.is_ascii_alphanumeric() || byte == b'-' || byte == b'.'
}

/// Whether a word is 1 to 253 such bytes (RFC 1035, section 2.3.4).
fn is_name(text: &str) -> bool {
    let bytes = text.as_bytes();
    1 <= bytes.len() && bytes.len() <= 253 && bytes.iter().all(|byte| is_in_name(*byte))
}

/// Why a value is refused, where it has not its form.
fn refusal_of_value(form: Form, text: &str) -> Option<Refusal> {
    match form {
        Form::Address(said) if !is_address(text) => Some(Refusal {
            kind: ErrorKind::InvalidValue,
            text: said,
        }),
        Form::Network if read_network(text).is_none() => Some(BAD_NETWORK),
        Form::Title if !is_title(text) => Some(BAD_TITLE),
        Form::Name if !is_name(text) => Some(BAD_NAME),
        _ => None,
    }
}

/// Why the first value is refused that has not this form.
fn refusal_of_values(form: Form, values: &[&str]) -> Option<Refusal> {
    values
        .iter()
        .find_map(|value| refusal_of_value(form, value))
}

/// Why the first row is refused of which a value has not its form.
pub(crate) fn refusal_of(found: &ArgMatches<'_>, rows: &[Row]) -> Option<Refusal> {
    rows.iter().find_map(|row| refusal_of_values(row.form, found.get_strs(row.name).unwrap_or(&[])))
}
