ghost use Rattle.std.specs.Prelude.{◌≡◌, map, codes, true, false, string_bytes, IfOk, MatchOption};
ghost use Rattle.std.specs.List.{list_all, list_any};
ghost use Rattle.std.specs.Option.{option_map_or};
ghost use Rattle.std.specs.Str.{bytes_eq};
ghost use Rattle.clap.specs.Words.{app_of, found_of, first_value};
ghost use Rattle.sc_arguments.specs.Arguments.{option_names};
ghost use Rattle.sc_arguments.specs.Found.{command_with, option_name, settings_found, HaveValues, NumbersDecide};
ghost use Rattle.sc_arguments.specs.Options.{settings, are_options, is_number, number_given, number_or};

use crate::command::{Command, names_of};
use crate::numbers::number_of;
use clap::error::ErrorKind;
use clap::{Arg, ArgMatches};
use std::alloc::{AllocError, Global};

/// The options among the words, each with a number and at most once; nothing where the words are no options of the command.
pub(crate) fn options_of<'a>(
    alloc: Global,
    command: Command,
    words: &'a [String],
) -> Result<Option<ArgMatches<'a>>, AllocError>
    ensures { IfOk result (λ options. MatchOption options (are_options (option_names command) (settings (map string_bytes words.now)) ≡ false)
        (λ found. (are_options (option_names command) (settings (map string_bytes words.now)) ≡ true)
        × (settings_found found ≡ settings (map string_bytes words.now)) × HaveValues found)) }
{
    let names = names_of(command);
    let Some(found) = found_by(alloc, names, words)? else {
        return Ok(None);
    };
    if are_numbers(&found, names) {
        Ok(Some(found))
    } else {
        Ok(None)
    }
}

/// What clap finds among the words, where none of them ends the options and clap takes them all.
fn found_by<'a>(
    alloc: Global,
    names: &[&'static str],
    words: &'a [String],
) -> Result<Option<ArgMatches<'a>>, AllocError>
    requires names { list_any (bytes_eq (codes "--")) (map option_name (map (λ name. name.now) names.now)) ≡ false }
    ensures { IfOk result (λ options. MatchOption options (are_options (map option_name (map (λ name. name.now) names.now)) (settings (map string_bytes words.now)) ≡ false)
        (λ found. NumbersDecide (map (λ name. name.now) names.now) (settings (map string_bytes words.now))
        × (settings_found found ≡ settings (map string_bytes words.now)) × HaveValues found)) }
{
    if ends_options(words) {
        return Ok(None);
    }
    match parser_of(alloc, names)?.try_get_matches_from(words) {
        Ok(found) => Ok(Some(found)),
        Err(error) => match error.kind() {
            ErrorKind::OutOfMemory => Err(AllocError),
            _ => Ok(None),
        },
    }
}

/// Whether a word is exactly `--`, after which clap takes no option.
fn ends_options(words: &[String]) -> bool
    ensures { result ≡ list_any (λ word. bytes_eq (string_bytes word) (codes "--")) words.now }
{
    words.iter().any(|word| word.as_str() == "--")
}

/// The parser of options that each take a value, and of nothing else.
fn parser_of<'a>(alloc: Global, names: &[&'static str]) -> Result<clap::Command<'a>, AllocError>
    ensures { IfOk result (λ parser. app_of parser ≡ command_with (map (λ name. name.now) names.now)) }
{
    let mut parser = clap::Command::new(alloc, "solr_split")
        .no_binary_name(true)
        .disable_help_flag(true);
    for name in names {
        parser = parser.arg(Arg::new(alloc, name).long(name))?;
    }
    Ok(parser)
}

/// Whether each of the options that is given has a number.
fn are_numbers(found: &ArgMatches<'_>, names: &[&str]) -> bool
    ensures { result ≡ list_all (λ name. option_map_or is_number (first_value (found_of found.now) name.now) true) names.now }
{
    names.iter().all(|name| has_number(found, name))
}

/// Whether an option has a number, where it is given.
fn has_number(found: &ArgMatches<'_>, name: &str) -> bool
    ensures { result ≡ option_map_or is_number (first_value (found_of found.now) name.now) true }
{
    match found.get_str(name) {
        Some(value) => number_of(value).is_some(),
        None => true,
    }
}

/// The number that an option is given, or its default.
pub(crate) fn number_or(default: u64, found: &ArgMatches<'_>, name: &str) -> u64
    requires values { HaveValues found.now }
    ensures { result ≡ number_or default (option_name name.now) (settings_found found.now) }
{
    match number_given(found, name) {
        Some(number) => number,
        None => default,
    }
}

/// The number that an option is given; 0 where its value is none.
pub(crate) fn number_given(found: &ArgMatches<'_>, name: &str) -> Option<u64>
    requires values { HaveValues found.now }
    ensures { result ≡ number_given (option_name name.now) (settings_found found.now) }
{
    match found.get_str(name) {
        Some(value) => Some(number_of(value).unwrap_or(0)),
        None => None,
    }
}
