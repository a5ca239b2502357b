//! Reads the options and the plain word that stand after a command.
ghost use Rattle.std.specs.Prelude.{◌≡◌, ◌<◌, [], Some, length, drop, false, map, option_map, IfOk, MatchOption, string_bytes};
ghost use Rattle.std.specs.List.{list_all};
ghost use Rattle.clap.specs.Words.{app_of, fault_of, found_of, matches_of, rows_of, rule_of};
ghost use Rattle.survey_words.specs.Items.{has_name as has_name_by, is_hyphened as is_hyphened_by, is_spelled as is_spelled_by, options_of};
ghost use Rattle.survey_words.specs.Parsed.{simple_command, option_rule, texts_found};
ghost use Rattle.survey_words.specs.Read.{option_texts};

use crate::NoMemory;
use clap::error::ErrorKind;
use clap::{Arg, ArgMatches, Command};
use std::alloc::Global;
use text_fields::Fields;

/// The value of each option, and the plain word.
#[derive(Clone, Copy)]
pub(crate) struct Options<'a> {
    pub(crate) port: Option<&'a str>,
    pub(crate) eliminators: Option<&'a str>,
    pub(crate) connections: Option<&'a str>,
    pub(crate) sample: Option<&'a str>,
    pub(crate) shape: Option<&'a str>,
}

/// The options in the words after the first.
pub(crate) fn read_options<'a>(
    alloc: Global,
    words: &'a [String],
) -> Result<Option<Options<'a>>, NoMemory>
    requires { 0 < length words.now }
    ensures { IfOk result (λ options. option_map option_texts options ≡ options_of (map (λ word. string_bytes word) (drop 1 words.entry.now))) }
{
    if !are_spelled(&words[1..]) {
        return Ok(None);
    }
    match parse(alloc, words)? {
        Some(matches) => Ok(Some(options_in(&matches))),
        None => Ok(None),
    }
}

/// The options that were found.
fn options_in<'a>(matches: &ArgMatches<'a>) -> Options<'a>
    ensures { option_texts result ≡ texts_found (rows_of (found_of matches.entry.now)) }
{
    Options {
        port: matches.get_str("port"),
        eliminators: matches.get_str("eliminators"),
        connections: matches.get_str("connections"),
        sample: matches.get_str("sample"),
        shape: matches.get_str("shape"),
    }
}

/// What the parser finds in the words after the first, or `None` where it refuses them.
fn parse<'a>(alloc: Global, words: &'a [String]) -> Result<Option<ArgMatches<'a>>, NoMemory>
    ensures { IfOk result (λ found. MatchOption found
        (fault_of simple_command (map (λ word. string_bytes word) words.entry.now) ≡ [] → ⊥)
        (λ matches. (fault_of simple_command (map (λ word. string_bytes word) words.entry.now) ≡ [])
        × (rows_of (found_of matches) ≡ matches_of simple_command (map (λ word. string_bytes word) words.entry.now)))) }
{
    let command = command(alloc)?;
    match command.try_get_matches_from(words) {
        Ok(matches) => Ok(Some(matches)),
        Err(error) => match error.kind() {
            ErrorKind::OutOfMemory => Err(NoMemory),
            _ => Ok(None),
        },
    }
}

/// One simple command of a plain word and the options, without help and version.
fn command<'a>(alloc: Global) -> Result<Command<'a>, NoMemory>
    ensures { IfOk result (λ command. app_of command ≡ simple_command) }
{
    let command = Command::new(alloc, "options")
        .disable_help_flag(true)
        .arg(Arg::new(alloc, "port"))?
        .arg(option(alloc, "eliminators"))?
        .arg(option(alloc, "connections"))?
        .arg(option(alloc, "sample"))?
        .arg(option(alloc, "shape"))?;
    Ok(command)
}

/// An option with a value.
fn option<'a>(alloc: Global, name: &'a str) -> Arg<'a>
    ensures rule { rule_of result ≡ option_rule name.entry.now }
    ensures local { result.global ≡ false }
{
    Arg::new(alloc, name).long(name)
}

/// Whether each word is plain, or an option by its whole name.
fn are_spelled(words: &[String]) -> bool
    ensures { result ≡ list_all is_spelled_by (map (λ word. string_bytes word) words.now) }
{
    for word in words {
        if !is_spelled(word.as_str()) {
            return false;
        }
    }
    true
}

/// Whether the word is plain, or an option by its whole name.
fn is_spelled(word: &str) -> bool
    ensures { result ≡ is_spelled_by word.now }
{
    !is_hyphened(word)
        || has_name(word, "--eliminators")
        || has_name(word, "--connections")
        || has_name(word, "--sample")
        || has_name(word, "--shape")
}

/// Whether the word begins with a hyphen.
fn is_hyphened(word: &str) -> bool
    ensures { result ≡ is_hyphened_by word.now }
{
    match word.as_bytes() {
        [b'-', ..] => true,
        _ => false,
    }
}

/// Whether the word is this name, or begins with it and `=`.
fn has_name(word: &str, name: &str) -> bool
    ensures { result ≡ has_name_by word.now name.now }
{
    let mut fields = Fields::of(word.as_bytes());
    match fields.word(name.as_bytes()) {
        Some(()) => fields.is_empty() || fields.skip(b'='),
        None => false,
    }
}
