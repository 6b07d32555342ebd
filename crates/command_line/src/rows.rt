//! The words and options of a command as rows of a table, and what a row is to the parser.

use clap::builder::ValueParser;
use clap::{Arg, ArgAction, Command};
use std::alloc::{AllocError, Global};

/// Whether a row is a word or an option, and how often it is given.
#[derive(Clone, Copy)]
pub(crate) enum Kind {
    /// A word by itself.
    Word,
    /// An option without a value.
    Flag,
    /// An option with a value.
    Value,
    /// An option with a value that may be given again and again.
    Values,
}

/// What a value has to be.
#[derive(Clone, Copy)]
pub(crate) enum Form {
    /// Any text.
    Text,
    /// A number from one to another.
    Number(i64, i64),
    /// An IPv4 address, a colon and a port. Where it is none, this is said.
    Address(&'static str),
    /// An IPv4 network.
    Network,
    /// An AE title.
    Title,
    /// The name of a host.
    Name,
}

/// A word or an option of a command.
#[derive(Clone, Copy)]
pub(crate) struct Row {
    /// What it is read by: of an option, what stands behind its two dashes.
    pub name: &'static str,
    pub kind: Kind,
    /// What stands for its value in the help.
    pub value: &'static str,
    pub form: Form,
    /// Whether it has to be there.
    pub needed: bool,
    /// What holds where it is left out.
    pub default: Option<&'static str>,
    /// The options of which one may be given, it among them.
    pub group: Option<&'static str>,
    /// The option that has to stand beside it, or one of a group.
    pub beside: Option<&'static str>,
    /// The options that may not.
    pub without: Option<&'static str>,
    /// What it stands below in the help.
    pub heading: Option<&'static str>,
    /// What is said of it in a line.
    pub line: &'static str,
    /// What is said of it in whole, where that is more.
    pub whole: Option<&'static str>,
}

/// A word that has to be there.
pub(crate) const WORD: Row = Row {
    name: "",
    kind: Kind::Word,
    value: "",
    form: Form::Text,
    needed: true,
    default: None,
    group: None,
    beside: None,
    without: None,
    heading: None,
    line: "",
    whole: None,
};

/// An option without a value.
pub(crate) const FLAG: Row = Row {
    kind: Kind::Flag,
    needed: false,
    ..WORD
};

/// An option with a value.
pub(crate) const VALUE: Row = Row {
    kind: Kind::Value,
    needed: false,
    ..WORD
};

/// An option with a value that may be given again and again.
pub(crate) const VALUES: Row = Row {
    kind: Kind::Values,
    needed: false,
    ..WORD
};

/// A command, and its words and options in the order of its help.
#[derive(Clone, Copy)]
pub(crate) struct CommandRow {
    pub name: &'static str,
    /// What is said of it in a line.
    pub line: &'static str,
    /// What is said of it in whole.
    pub whole: &'static str,
    pub rows: &'static [Row],
}

/// What the parser does with each use of a row.
fn action_of(kind: Kind) -> ArgAction {
    match kind {
        Kind::Word | Kind::Value => ArgAction::Set,
        Kind::Flag => ArgAction::SetTrue,
        Kind::Values => ArgAction::Append,
    }
}

/// What its value is read by.
fn parser_of<'a>(row: &Row) -> ValueParser<'a> {
    match (row.kind, row.form) {
        (Kind::Flag, _) => ValueParser::Bool,
        (_, Form::Number(least, most)) => ValueParser::Signed(least, most),
        _ => ValueParser::String,
    }
}

/// What stands for its value in the help: a word stands for itself.
fn value_of(row: &Row) -> &'static str {
    match row.kind {
        Kind::Word => row.name,
        _ => row.value,
    }
}

/// What is said of it in whole: the line where that is no more.
fn whole_of(row: &Row) -> &'static str {
    row.whole.unwrap_or(row.line)
}

/// A word by itself, or an option, whose name stands behind two dashes.
fn named<'a>(alloc: Global, row: &Row) -> Arg<'a> {
    let arg = Arg::new(alloc, row.name);
    match row.kind {
        Kind::Word => arg,
        _ => arg.long(row.name),
    }
}

/// It has its default.
fn with_default<'a>(arg: Arg<'a>, default: Option<&'static str>) -> Arg<'a> {
    match default {
        None => arg,
        Some(default) => arg.default_value(default),
    }
}

/// It stands below its heading.
fn below<'a>(arg: Arg<'a>, heading: Option<&'static str>) -> Arg<'a> {
    match heading {
        None => arg,
        Some(heading) => arg.help_heading(heading),
    }
}

/// It is of its group.
fn grouped<'a>(arg: Arg<'a>, group: Option<&'static str>) -> Result<Arg<'a>, AllocError> {
    match group {
        None => Ok(arg),
        Some(group) => arg.group(group),
    }
}

/// It wants another beside it.
fn beside<'a>(arg: Arg<'a>, other: Option<&'static str>) -> Result<Arg<'a>, AllocError> {
    match other {
        None => Ok(arg),
        Some(other) => arg.requires_arg(other),
    }
}

/// It stands without others.
fn without<'a>(arg: Arg<'a>, others: Option<&'static str>) -> Result<Arg<'a>, AllocError> {
    match others {
        None => Ok(arg),
        Some(others) => arg.conflicts_with(others),
    }
}

/// What a row is by itself.
fn alone<'a>(alloc: Global, row: &Row) -> Arg<'a> {
    let arg = named(alloc, row)
        .action(action_of(row.kind))
        .required(row.needed)
        .value_name(value_of(row))
        .value_parser(parser_of(row))
        .help(row.line)
        .long_help(whole_of(row));
    below(with_default(arg, row.default), row.heading)
}

/// What a row is to the parser.
fn arg_of<'a>(alloc: Global, row: &Row) -> Result<Arg<'a>, AllocError> {
    let arg = grouped(alone(alloc, row), row.group)?;
    without(beside(arg, row.beside)?, row.without)
}

/// A command with one word or option more.
fn with<'a>(alloc: Global, command: Command<'a>, row: &Row) -> Result<Command<'a>, AllocError> {
    command.arg(arg_of(alloc, row)?)
}

/// A command with its words and options.
pub(crate) fn command_of<'a>(alloc: Global, told: &CommandRow) -> Result<Command<'a>, AllocError> {
    let mut command = Command::new(alloc, told.name)
        .about(told.line)
        .long_about(told.whole);
    for row in told.rows {
        command = with(alloc, command, row)?;
    }
    Ok(command)
}
