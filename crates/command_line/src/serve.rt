//! The words and options of a server.

use crate::commands::{FILE, IDLE, SITE_NUMBER};
use crate::refusals::{BAD_DESK, BAD_EXCHANGE, BAD_LISTEN, BAD_PAGE, BAD_PEER};
use crate::rows::{FLAG, Form, Row, VALUE, VALUES};

/// An option of where a server listens and how much it serves.
const LISTENING: Row = Row {
    heading: Some("Listening"),
    ..VALUE
};

/// The heading of the options of the sites that a server calls.
const OTHERS: &str = "Other sites";

/// A network from which peers may come.
const NETWORK: Row = Row {
    value: "NETWORK",
    form: Form::Network,
    heading: Some("Who may come"),
    ..VALUES
};

/// A title that may ask.
const TITLE: Row = Row {
    value: "TITLE",
    form: Form::Title,
    heading: Some("Who may come"),
    ..VALUES
};

/// An option of how a server ends and what it tells.
const ENDING: Row = Row {
    heading: Some("Ending and telling"),
    ..FLAG
};

/// The greatest number of 32 bits.
const MOST: i64 = 4_294_967_295;

/// A number of 32 bits.
const ANY_NUMBER: Form = Form::Number(0, MOST);

/// The words and options of `serve`, in the order of its help.
pub(crate) const SERVE_ROWS: &[Row] = &[
    Row {
        needed: false,
        default: Some("site.db"),
        ..FILE
    },
    Row {
        name: "listen",
        value: "ADDR",
        form: Form::Address(BAD_LISTEN),
        default: Some("127.0.0.1:11112"),
        line: "Where associations come in",
        ..LISTENING
    },
    Row {
        name: "workers",
        value: "N",
        form: Form::Number(1, 64),
        default: Some("8"),
        line: "How many of them at once, 1 to 64",
        ..LISTENING
    },
    Row {
        name: "each",
        value: "N",
        form: ANY_NUMBER,
        line: "How many each worker accepts [default: no end]",
        whole: Some(
            "How many associations each worker accepts before it \
            ends{n}{n}[default: no end]",
        ),
        ..LISTENING
    },
    Row {
        name: "exchange",
        value: "ADDR",
        form: Form::Address(BAD_EXCHANGE),
        beside: Some("rounds"),
        line: "Where exchanges come in",
        ..LISTENING
    },
    Row {
        name: "rounds",
        value: "N",
        form: ANY_NUMBER,
        beside: Some("exchange"),
        line: "How many exchanges are served",
        ..LISTENING
    },
    Row {
        name: "exchange-workers",
        value: "N",
        form: Form::Number(1, 64),
        beside: Some("exchange"),
        line: "How many of them at once, 1 to 64 [default: 2]",
        whole: Some("How many exchanges are served at once, 1 to 64{n}{n}[default: 2]"),
        ..LISTENING
    },
    Row {
        name: "page",
        value: "ADDR",
        form: Form::Address(BAD_PAGE),
        line: "Where pages are asked for [default: nowhere]",
        whole: Some(
            "Where pages of the site are asked for, by HTTP: what it holds, to \
            be{n}looked at and not changed{n}{n}[default: nowhere]",
        ),
        ..LISTENING
    },
    Row {
        name: "desk",
        value: "ADDR",
        form: Form::Address(BAD_DESK),
        beside: Some("site"),
        line: "Where corrections are asked for [default: nowhere]",
        whole: Some(
            "Where an administrator asks for corrections of the running site, by \
            HTTP{n}{n}[default: nowhere]",
        ),
        ..LISTENING
    },
    Row {
        beside: Some("desk"),
        heading: Some("Listening"),
        ..SITE_NUMBER
    },
    Row {
        name: "peer",
        value: "ADDR",
        form: Form::Address(BAD_PEER),
        heading: Some(OTHERS),
        line: "A site that is called again and again",
        ..VALUES
    },
    Row {
        name: "every",
        value: "SECONDS",
        form: Form::Number(1, MOST),
        beside: Some("peer"),
        heading: Some(OTHERS),
        line: "The wait before a peer is called again [default: 60]",
        whole: Some(
            "How long it waits before it calls a peer again, from 1 second \
            on{n}{n}[default: 60]",
        ),
        ..VALUE
    },
    Row {
        name: "allow",
        line: "A network of associations [default: any]",
        whole: Some(
            "A network from which associations may come, which can be given \
            again{n}{n}[default: any]",
        ),
        ..NETWORK
    },
    Row {
        name: "exchange-allow",
        line: "A network of exchanges [default: any]",
        whole: Some(
            "A network from which exchanges may come, which can be given \
            again{n}{n}[default: any]",
        ),
        ..NETWORK
    },
    Row {
        name: "page-allow",
        beside: Some("page"),
        line: "A network of pages [default: 127.0.0.0/8]",
        whole: Some(
            "A network from which pages may be asked for, which can be given \
            again{n}{n}[default: 127.0.0.0/8]",
        ),
        ..NETWORK
    },
    Row {
        name: "desk-allow",
        beside: Some("desk"),
        line: "A network of corrections [default: 127.0.0.0/8]",
        whole: Some(
            "A network from which corrections may be asked for, which can be given \
            again{n}{n}[default: 127.0.0.0/8]",
        ),
        ..NETWORK
    },
    Row {
        name: "name",
        value: "NAME",
        form: Form::Name,
        heading: Some("Who may come"),
        line: "A name of the site in a browser [default: none]",
        whole: Some(
            "A name by which pages and the desk may be asked beside their addresses \
            and{n}localhost, which can be given again{n}{n}[default: none]",
        ),
        ..VALUES
    },
    Row {
        name: "calling",
        line: "A title that may call [default: any]",
        whole: Some(
            "A calling title that may ask for an association, which can be \
            given{n}again{n}{n}[default: any]",
        ),
        ..TITLE
    },
    Row {
        name: "quality-calling",
        line: "A title that may call QUALITY [default: see --calling]",
        whole: Some(
            "A calling title that may call QUALITY, which can be given \
            again{n}{n}[default: those of --calling]",
        ),
        ..TITLE
    },
    Row {
        name: "audit-calling",
        line: "A title that may call AUDIT [default: see --calling]",
        whole: Some(
            "A calling title that may call AUDIT, which can be given \
            again{n}{n}[default: those of --calling]",
        ),
        ..TITLE
    },
    Row {
        name: "cache",
        value: "MIB",
        // Up to a tebibyte.
        form: Form::Number(0, 1_048_576),
        heading: Some("Cache"),
        line: "Room for images used last, in MiB [default: 32]",
        whole: Some(
            "How much memory images may hold that were stored or sent last, in \
            MiB,{n}0 to 1048576; they are not read again{n}{n}[default: 32]",
        ),
        ..VALUE
    },
    Row {
        heading: Some("Ending and telling"),
        ..IDLE
    },
    Row {
        name: "until-end-of-input",
        line: "Ends once its standard input does",
        ..ENDING
    },
    Row {
        name: "show-without",
        line: "Starts where a rejection note may be unreadable",
        whole: Some(
            "Starts also where an operation that can't be read may be a rejection \
            note:{n}images that it hides are then shown",
        ),
        ..ENDING
    },
    Row {
        name: "verbose",
        line: "Tells what it serves on standard error",
        ..ENDING
    },
];
