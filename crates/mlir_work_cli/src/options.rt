//! Parses the command line.
ghost use Rattle.std.specs.Prelude.{◌≡◌, ◌&&◌, IfErr, IfOk, codes, map, option_map, true};
ghost use Rattle.clap.specs.Words.{found_of, kind_of, rows_of, takes};
ghost use Rattle.clap.specs.declared.error.kind.ErrorKind.TheVariants.{OutOfMemory};
ghost use Rattle.mlir_work_cli.specs.ArgValues.{given, is_set};
ghost use Rattle.mlir_work_cli.specs.Arguments.{program};
ghost use Rattle.mlir_work_cli.specs.CommandLines.{HasOptions, HasValues, IsCommandLine, IsLine, excludes_interactive};
ghost use Rattle.mlir_work_cli.specs.CommandLines.{format_named, format_of, is_accepted, is_json, list_of};
ghost use Rattle.mlir_work_cli.specs.ListedKinds.{kinds_in};

use crate::arg_values::{first_of, is_given, is_set, limit_of, values_of};
use crate::arguments::{command, worded_command};
use crate::listed_kinds::kinds_in;
use crate::text;
use clap::error::ErrorKind;
use clap::{ArgMatches, Error};
use mlir_work_run::run::Options;
use mlir_work_script_base::kind::Kind;
use std::alloc::{AllocError, Global};

/// The format of the output.
#[derive(Clone, Copy, Debug, PartialEq, Eq)]
pub enum Format {
    /// Lines of text.
    Text,
    /// One JSON object for each line.
    Json,
}

/// A parsed command line.
#[derive(Drop)]
pub struct CommandLine<'a> {
    /// The options of the run.
    pub options: Options,
    /// The file of the module, if one is named; `-` is standard input.
    pub module: Option<&'a str>,
    /// The script files in order; `-` is standard input.
    pub scripts: Vec<&'a str>,
    /// The commands in order. They run after the scripts.
    pub commands: Vec<&'a str>,
    /// The kinds of analyses to attach at the start, in any order. One may be there twice.
    pub analyses: Vec<Kind>,
    /// The files of user patterns in order.
    pub patterns: Vec<&'a str>,
    /// The output file, if one is named; `-` is standard output.
    pub output: Option<&'a str>,
    /// The format of the output.
    pub format: Format,
    /// Whether the module's file has several modules with dividers between them. The scripts run on each module.
    pub split: bool,
}

/// Returns the format with this word, or `None`.
fn format_named(word: &str) -> Option<Format>
    ensures { result ≡ format_named word.now }
{
    if word == text::JSON {
        return Some(Format::Json);
    }
    if word == text::TEXT {
        return Some(Format::Text);
    }
    None
}

/// Returns the requested output format, or `None` if its word isn't known.
fn format_of(matches: &ArgMatches<'_>) -> Option<Format>
    ensures { result ≡ format_of (rows_of (found_of matches.now)) }
{
    match first_of(matches, "format") {
        Some(word) => format_named(word),
        None => Some(Format::Text),
    }
}

/// Returns whether a format is JSON.
fn is_json(format: Format) -> bool
    ensures { result ≡ is_json format }
{
    match format {
        Format::Json => true,
        Format::Text => false,
    }
}

/// Returns the list of analyses to attach.
fn list_of<'a>(matches: &ArgMatches<'a>) -> &'a str
    ensures { result.now ≡ list_of (rows_of (found_of matches.now)) }
{
    match first_of(matches, "analyses") {
        Some(list) => list,
        None => text::ALL,
    }
}

/// Returns the kinds of analyses to attach, or `None` if an item of the list isn't known.
fn analyses_of(alloc: Global, matches: &ArgMatches<'_>) -> Result<Option<Vec<Kind>>, AllocError>
    ensures { IfOk result (λ found.
        option_map (λ named. named.items) found ≡ kinds_in (list_of (rows_of (found_of matches.now)))) }
{
    kinds_in(alloc, list_of(matches).as_bytes())
}

/// Returns whether an argument is given that excludes `--interactive`: with it, lines come from standard input only.
fn excludes_interactive(matches: &ArgMatches<'_>) -> bool
    ensures { result ≡ excludes_interactive (rows_of (found_of matches.now)) }
{
    is_given(matches, "module")
        || is_given(matches, "script")
        || is_given(matches, "command")
        || is_given(matches, "output")
        || is_given(matches, "split")
}

/// Returns whether arguments exclude each other.
fn is_contradictory(matches: &ArgMatches<'_>) -> bool
    ensures { result ≡ (is_set (rows_of (found_of matches.now)) (codes "interactive")
        && excludes_interactive (rows_of (found_of matches.now))) }
{
    is_set(matches, "interactive") && excludes_interactive(matches)
}

/// Returns the options of a run.
fn run_options(matches: &ArgMatches<'_>, format: Format) -> Options
    ensures { HasOptions (rows_of (found_of matches.now)) format result }
{
    Options {
        brief: is_set(matches, "brief"),
        limit: limit_of(matches),
        ends: is_set(matches, "interactive"),
        opaque: is_set(matches, "opaque"),
        explain: is_set(matches, "explain") || is_json(format),
        strict: is_set(matches, "strict"),
    }
}

/// Returns what the words give for each argument.
fn parsed<'a>(alloc: Global, words: &'a [String]) -> Result<ArgMatches<'a>, Error>
    ensures found { IfOk result (λ m. rows_of (found_of m) ≡ given (map (λ w. w.bytes.items) words.entry.now)) }
    ensures passes { IfErr result (λ error. takes program (map (λ w. w.bytes.items) words.entry.now) ≡ true
        → kind_of error ≡ OutOfMemory) }
{
    let command = command(alloc)?;
    command.try_get_matches_from(words)
}

/// Returns the command line with the values that were found.
fn filled<'a>(
    alloc: Global,
    matches: &ArgMatches<'a>,
    format: Format,
    analyses: Vec<Kind>,
) -> Result<CommandLine<'a>, AllocError>
    ensures { IfOk result (HasValues (rows_of (found_of matches.now)) format analyses.items) }
{
    Ok(CommandLine {
        options: run_options(matches, format),
        module: first_of(matches, "module"),
        scripts: values_of(alloc, matches, "script")?,
        commands: values_of(alloc, matches, "command")?,
        analyses,
        patterns: values_of(alloc, matches, "patterns")?,
        output: first_of(matches, "output"),
        format,
        split: is_set(matches, "split"),
    })
}

/// Returns the command line that was found, or `None` if a value isn't known or arguments exclude each other.
fn line_of<'a>(
    alloc: Global,
    matches: &ArgMatches<'a>,
) -> Result<Option<CommandLine<'a>>, AllocError>
    ensures { IfOk result (IsLine (rows_of (found_of matches.now))) }
{
    let Some(format) = format_of(matches) else {
        return Ok(None);
    };
    let Some(analyses) = analyses_of(alloc, matches)? else {
        return Ok(None);
    };
    if is_contradictory(matches) {
        return Ok(None);
    }
    let line = filled(alloc, matches, format, analyses)?;
    Ok(Some(line))
}

/// Returns an error with a text that names the mistake in refused words: that of a parse that also knows the values of
/// `--format` and `--analyses` and which arguments exclude `--interactive`. Without such an error, returns `error`.
fn worded<'a>(alloc: Global, words: &'a [String], error: Error) -> Error
    ensures { kind_of error ≡ OutOfMemory → kind_of result ≡ OutOfMemory }
{
    if error.kind() == ErrorKind::OutOfMemory {
        return error;
    }
    let Ok(command) = worded_command(alloc) else {
        return Error::from(AllocError);
    };
    match command.try_get_matches_from(words) {
        Ok(_) => error,
        Err(worded) => worded,
    }
}

/// Returns an error for values that aren't known and arguments that exclude each other.
fn inconsistent(alloc: Global) -> Result<Error, AllocError> {
    let mut command = command(alloc)?;
    command.error(
        ErrorKind::ValueValidation,
        "a value isn't known, or arguments exclude each other",
    )
}

/// Parses the words of a command line, with the program's name first.
///
/// Errors: a malformed command line; the text of `--help` or `--version`; memory runs out. An accepted command line is
/// refused only if memory runs out.
pub fn options_of<'a>(alloc: Global, words: &'a [String]) -> Result<CommandLine<'a>, Error>
    ensures read { IfOk result (IsCommandLine (map (λ w. w.bytes.items) words.entry.now)) }
    ensures passes { IfErr result (λ error. is_accepted (map (λ w. w.bytes.items) words.entry.now) ≡ true
        → kind_of error ≡ OutOfMemory) }
{
    let matches = match parsed(alloc, words) {
        Ok(matches) => matches,
        Err(error) => return Err(worded(alloc, words, error)),
    };
    match line_of(alloc, &matches)? {
        Some(line) => Ok(line),
        None => Err(worded(alloc, words, inconsistent(alloc)?)),
    }
}
