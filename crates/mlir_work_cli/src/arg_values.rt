//! Reads the values of the arguments of a command line.
ghost use Rattle.std.specs.Prelude.{◌≡◌, IfOk, codes, map, option_map};
ghost use Rattle.clap.specs.Words.{all_of, first_of, found_of, rows_of};
ghost use Rattle.mlir_work_cli.specs.ArgValues.{is_given, is_set, limit_of, number_or_default, source_of, values_of};

use clap::ArgMatches;
use clap::parser::ValueSource;
use std::alloc::{AllocError, Global};

/// The rewrite limit of a `canon` without a limit, if the command line gives none. `text::DEFAULT_LIMIT` shows the
/// same number.
const DEFAULT_LIMIT: u32 = 1000;

/// Returns the first value of an argument.
pub(crate) fn first_of<'a>(matches: &ArgMatches<'a>, name: &str) -> Option<&'a str>
    ensures { option_map (λ s. s.now) result ≡ first_of name.now (rows_of (found_of matches.now)) }
{
    matches.get_str(name)
}

/// Returns all values of an argument in order.
fn all_of<'m, 'a>(matches: &'m ArgMatches<'a>, name: &str) -> Option<&'m [&'a str]>
    ensures { option_map (λ s. map (λ v. v.now) s.now) result ≡ all_of name.now (rows_of (found_of matches.now)) }
{
    matches.get_strs(name)
}

/// Returns whether an option without a value is given.
pub(crate) fn is_set(matches: &ArgMatches<'_>, name: &str) -> bool
    ensures { result ≡ is_set (rows_of (found_of matches.now)) name.now }
{
    match first_of(matches, name) {
        Some(text) => text == "true",
        None => false,
    }
}

/// Returns where the values of an argument are from.
fn source_of(matches: &ArgMatches<'_>, name: &str) -> Option<ValueSource>
    ensures { result ≡ source_of (rows_of (found_of matches.now)) name.now }
{
    matches.value_source(name)
}

/// Returns whether an argument is given, and not only its default.
pub(crate) fn is_given(matches: &ArgMatches<'_>, name: &str) -> bool
    ensures { result ≡ is_given (rows_of (found_of matches.now)) name.now }
{
    match source_of(matches, name) {
        Some(ValueSource::CommandLine) => true,
        Some(ValueSource::DefaultValue) => false,
        None => false,
    }
}

/// Returns the values of a repeatable option in order.
pub(crate) fn values_of<'a>(
    alloc: Global,
    matches: &ArgMatches<'a>,
    name: &str,
) -> Result<Vec<&'a str>, AllocError>
    ensures { IfOk result (λ values. map (λ s. s.now) values.items ≡ values_of (rows_of (found_of matches.now)) name.now) }
{
    let mut values = Vec::new(alloc);
    if let Some(found) = all_of(matches, name) {
        values.extend_from_slice(found)?;
    }
    Ok(values)
}

/// Returns the number that a value of `--limit` spells.
fn number_of(text: &str) -> u32
    ensures { result ≡ number_or_default text.now }
{
    text.parse::<u32>().unwrap_or(DEFAULT_LIMIT)
}

/// Returns the rewrite limit.
pub(crate) fn limit_of(matches: &ArgMatches<'_>) -> u32
    ensures { result ≡ limit_of (rows_of (found_of matches.now)) }
{
    match first_of(matches, "limit") {
        Some(text) => number_of(text),
        None => DEFAULT_LIMIT,
    }
}
