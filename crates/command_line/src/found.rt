//! What the parser found of the words of a command, by the names of what stands in them.

ghost use Rattle.std.specs.Prelude.{◌≡◌, map, option_map};
ghost use Rattle.clap.specs.Simple.{subcommand_rows_of};
ghost use Rattle.command_line.specs.Found.{rows_in, given_at, text_at, texts_at};
ghost use Rattle.command_line.specs.Found.{number_at, short_at, flag_at};

use clap::ArgMatches;

/// The text of a name, if it is there.
#[tactic(auto, using(crate::proofs::FoundLaws::given_is))]
pub(crate) fn given<'a>(found: &ArgMatches<'a>, name: &str) -> Option<&'a str>
    ensures { option_map (λ text. text.now) result ≡ given_at (rows_in found.now) name.now }
{
    found.get_str(name)
}

/// The text of a name, which is there where the name is that of a word that has to be.
pub(crate) fn text<'a>(found: &ArgMatches<'a>, name: &str) -> &'a str
    ensures { result.now ≡ text_at (rows_in found.now) name.now }
{
    match given(found, name) {
        None => "",
        Some(text) => text,
    }
}

/// The texts of a name, in their order, if it is there.
#[tactic(auto, using(crate::proofs::FoundLaws::texts_are))]
pub(crate) fn texts<'b, 'a>(found: &'b ArgMatches<'a>, name: &str) -> Option<&'b [&'a str]>
    ensures { option_map (λ texts. map (λ text. text.now) texts.now) result
        ≡ texts_at (rows_in found.now) name.now }
{
    found.get_strs(name)
}

/// The number of a name.
pub(crate) fn number(found: &ArgMatches<'_>, name: &str) -> Option<u32>
    ensures { result ≡ number_at (rows_in found.now) name.now }
{
    found.get_one::<u32>(name)
}

/// The number of a name, of those up to 65535.
pub(crate) fn short(found: &ArgMatches<'_>, name: &str) -> Option<u16>
    ensures { result ≡ short_at (rows_in found.now) name.now }
{
    u16::try_from(number(found, name)?).ok()
}

/// Whether an option without a value is there.
pub(crate) fn has(found: &ArgMatches<'_>, name: &str) -> bool
    ensures { result ≡ flag_at (rows_in found.now) name.now }
{
    found.get_one::<bool>(name).unwrap_or(false)
}

/// The name of the command, and what was found of the words behind it.
pub(crate) fn command_in<'b, 'a>(found: &'b ArgMatches<'a>) -> Option<(&'a str, &'b ArgMatches<'a>)>
    ensures { option_map (λ command. (command.0.now, rows_in command.1.now)) result
        ≡ subcommand_rows_of found.now }
{
    found.subcommand()
}
