//! The options of a command, as clap reads them.

ghost use Rattle.std.specs.Prelude.{◌≡◌, ◌≢◌, Bool, List, Some, None, true, cond, IfOk};
ghost use Rattle.std.specs.List.{list_all};
ghost use Rattle.std.specs.Option.{option_copied, option_map};
ghost use Rattle.clap.specs.Words.{first_value, found_of, kind_of, one_text};
ghost use Rattle.command_words.specs.Fair as spelling;
ghost use Rattle.command_words.specs.Given.{all_given, given_of, row_seen, rows_seen, texts};
ghost use Rattle.command_words.specs.Matches.{HoldEach, Holds, Says};
ghost use Rattle.command_words.specs.Options as spelled;
ghost use Rattle.command_words.specs.Reading.{Gives};
ghost use Rattle.command_words.specs.Tables as tables;

use crate::apps::command;
use crate::faults::WordsFault;
use crate::given::Given;
use crate::rows::{Kind, Row};
use clap::error::ErrorKind;
use clap::{ArgMatches, Error};
use std::alloc::{AllocError, Global};

/// The options that words give a command with this table.
pub(crate) fn options_of<'a>(
    alloc: Global,
    name: &'a str,
    rows: &[Row<'a>],
    words: &'a [&'a str],
) -> Result<Vec<Given<'a>>, WordsFault>
    requires names { tables.has_names (rows_seen rows.now) ≡ true }
    requires sound { tables.is_sound (rows_seen rows.now) ≡ true }
    ensures { Gives (λ given. all_given given.items) result
        (tables.options_of (rows_seen rows.now) (texts words.now)) }
{
    if !are_fair(words) {
        return Err(WordsFault::Words);
    }
    let command = command(alloc, name, rows)?;
    match command.try_get_matches_from(words) {
        Ok(matches) => Ok(options_found(alloc, rows, &matches)?),
        Err(error) => Err(fault_of(&error)),
    }
}

fn fault_of(error: &Error) -> WordsFault
    ensures memory { kind_of error.now ≡ ErrorKind.OutOfMemory → result ≡ WordsFault.NoMemory }
    ensures words { kind_of error.now ≢ ErrorKind.OutOfMemory → result ≡ WordsFault.Words }
{
    match error.kind() {
        ErrorKind::OutOfMemory => WordsFault::NoMemory,
        _ => WordsFault::Words,
    }
}

/// The options that clap found, in the order of the rows.
fn options_found<'a>(
    alloc: Global,
    rows: &[Row<'a>],
    matches: &ArgMatches<'a>,
) -> Result<Vec<Given<'a>>, AllocError>
    ensures { IfOk result (λ given. (options : List spelled.Given) →
        tables.is_sound (rows_seen rows.now) ≡ true → HoldEach options matches.now (rows_seen rows.now) →
        all_given given.items ≡ tables.in_rows options (rows_seen rows.now)) }
{
    let mut given = Vec::new(alloc);
    for row in rows {
        if let Some(option) = option_of(row, matches) {
            given.push(option)?;
        }
    }
    Ok(given)
}

/// A row's option, where clap found it.
fn option_of<'a>(row: &Row<'a>, matches: &ArgMatches<'a>) -> Option<Given<'a>>
    ensures { (options : List spelled.Given) → Holds options matches.now (row_seen row.now) →
        option_map given_of result ≡ tables.option_of options (row_seen row.now) }
{
    match row.kind {
        Kind::Required => value_option(row.name, matches),
        Kind::Optional => value_option(row.name, matches),
        Kind::Flag => flag_option(row.name, matches),
    }
}

fn value_option<'a>(name: &'a str, matches: &ArgMatches<'a>) -> Option<Given<'a>>
    ensures { option_map given_of result ≡
        option_map (λ value. (name.now, Some value)) (first_value (found_of matches.now) name.now) }
{
    let value = matches.get_str(name)?;
    Some(Given {
        name,
        value: Some(value),
    })
}

fn flag_option<'a>(name: &'a str, matches: &ArgMatches<'a>) -> Option<Given<'a>>
    ensures { (given : Bool) → Says given (one_text (found_of matches.now) name.now) →
        option_map given_of result ≡ cond given (Some (name.now, None)) None }
{
    if matches.get_flag(name) {
        Some(Given { name, value: None })
    } else {
        None
    }
}

/// Whether each word begins with no dash, or with two and more behind them. Of the other words clap takes some.
fn are_fair(words: &[&str]) -> bool
    ensures { result ≡ list_all (λ word. spelling.is_fair word.now) words.now }
{
    words.iter().all(|word| is_fair(word.as_bytes()))
}

fn is_fair(word: &[u8]) -> bool
    ensures { result ≡ spelling.is_fair word.now }
{
    match word {
        [] => true,
        [first] | [first, _] => *first != b'-',
        [first, second, ..] => *first != b'-' || *second == b'-',
    }
}
