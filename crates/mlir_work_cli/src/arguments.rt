//! Declares the arguments of the command line.
ghost use Rattle.std.specs.Prelude.{◌≡◌, IfOk, codes, false};
ghost use Rattle.clap.specs.Words.{app_of, rule_of, with_rule};
ghost use Rattle.mlir_work_cli.specs.Arguments.{IsDeclared, analyses_rule, command_rule, flag, flag_as, format_rule};
ghost use Rattle.mlir_work_cli.specs.Arguments.{limit_rule, module_rule, option, output_rule, program, repeated};
ghost use Rattle.mlir_work_cli.specs.Arguments.{script_rule, split_rule, titled, with_basics, with_files, with_inputs, with_values};

use crate::text;
use clap::{Arg, ArgAction, Command, value_parser};
use std::alloc::{AllocError, Global};

/// The largest value of `--limit`.
const MOST_LIMIT: i64 = 1_000_000;

/// The values of `--format`.
const FORMATS: &[&str] = &[text::TEXT, text::JSON];

/// The items of a list of `--analyses`.
const ANALYSES: &[&str] = &[
    text::ALL,
    text::NONE,
    "uses",
    "symbols",
    "diagnostics",
    "effects",
    "dead",
    "constants",
    "unreached",
];

/// Declares an option without a value.
fn flag<'a>(alloc: Global, name: &'a str, long: &'a str, help: &'a str) -> Arg<'a>
    ensures { IsDeclared (flag_as name.entry.now long.entry.now) result }
{
    Arg::new(alloc, name)
        .long(long)
        .help(help)
        .action(ArgAction::SetTrue)
}

/// Declares an option with one value. Help calls the value `value`.
fn option<'a>(alloc: Global, name: &'a str, value: &'a str, help: &'a str) -> Arg<'a>
    ensures { IsDeclared (option name.entry.now) result }
{
    Arg::new(alloc, name)
        .long(name)
        .value_name(value)
        .help(help)
}

/// Declares an option with one value that may be repeated.
fn repeated<'a>(alloc: Global, name: &'a str, value: &'a str, help: &'a str) -> Arg<'a>
    ensures { IsDeclared (repeated name.entry.now) result }
{
    option(alloc, name, value, help).action(ArgAction::Append)
}

/// Declares `--limit`.
fn limit<'a>(alloc: Global) -> Arg<'a>
    ensures { IsDeclared limit_rule result }
{
    option(alloc, "limit", "N", text::LIMIT)
        .default_value(text::DEFAULT_LIMIT)
        .value_parser(value_parser!(u32).range(1..=MOST_LIMIT))
}

/// Declares `--analyses`, whose list may be any text.
fn analyses<'a>(alloc: Global) -> Arg<'a>
    ensures { IsDeclared analyses_rule result }
{
    option(alloc, "analyses", "LIST", text::ANALYSES).default_value(text::ALL)
}

/// Declares `--format`, whose value may be any text.
fn output_format<'a>(alloc: Global) -> Arg<'a>
    ensures { IsDeclared format_rule result }
{
    option(alloc, "format", "FORMAT", text::FORMAT).default_value(text::TEXT)
}

/// Declares `--interactive`.
fn interactive<'a>(alloc: Global) -> Arg<'a>
    ensures { IsDeclared (flag (codes "interactive")) result }
{
    flag(alloc, "interactive", "interactive", text::INTERACTIVE)
}

/// Declares the positional argument MODULE.
fn module<'a>(alloc: Global) -> Arg<'a>
    ensures { IsDeclared module_rule result }
{
    Arg::new(alloc, "module")
        .value_name("MODULE")
        .help(text::MODULE)
}

/// Declares `--script`.
fn script<'a>(alloc: Global) -> Arg<'a>
    ensures { IsDeclared script_rule result }
{
    repeated(alloc, "script", "FILE", text::SCRIPT).short('s')
}

/// Declares `--command`.
fn line<'a>(alloc: Global) -> Arg<'a>
    ensures { IsDeclared command_rule result }
{
    repeated(alloc, "command", "COMMAND", text::COMMAND).short('e')
}

/// Declares `--split-input-file`.
fn split<'a>(alloc: Global) -> Arg<'a>
    ensures { IsDeclared split_rule result }
{
    flag(alloc, "split", "split-input-file", text::SPLIT)
}

/// Declares `--output`.
fn output<'a>(alloc: Global) -> Arg<'a>
    ensures { IsDeclared output_rule result }
{
    option(alloc, "output", "FILE", text::OUTPUT).short('o')
}

/// Declares the command line without its arguments.
fn titled<'a>(alloc: Global) -> Command<'a>
    ensures { app_of result ≡ titled }
{
    Command::new(alloc, "mlir_work")
        .version(text::VERSION)
        .about(text::ABOUT)
        .after_help(text::AFTER)
}

/// Adds an argument.
fn with<'a>(command: Command<'a>, arg: Arg<'a>) -> Result<Command<'a>, AllocError>
    ensures { arg.entry.global ≡ false → IfOk result (λ c. app_of c ≡ with_rule (app_of command.entry) (rule_of arg.entry)) }
{
    command.arg(arg)
}

/// Adds the arguments that name the files and commands to read.
fn with_files<'a>(alloc: Global, command: Command<'a>) -> Result<Command<'a>, AllocError>
    ensures { IfOk result (λ c. app_of c ≡ with_files (app_of command.entry)) }
{
    let command = with(command, module(alloc))?;
    let command = with(command, script(alloc))?;
    let command = with(command, line(alloc))?;
    with(command, repeated(alloc, "patterns", "FILE", text::PATTERNS))
}

/// Adds `--output`, `--brief`, `--limit` and `--opaque`.
fn with_basics<'a>(alloc: Global, command: Command<'a>) -> Result<Command<'a>, AllocError>
    ensures { IfOk result (λ c. app_of c ≡ with_basics (app_of command.entry)) }
{
    let command = with(command, output(alloc))?;
    let command = with(command, flag(alloc, "brief", "brief", text::BRIEF))?;
    let command = with(command, limit(alloc))?;
    with(command, flag(alloc, "opaque", "opaque", text::OPAQUE))
}

/// Adds `--explain` and `--strict`, and two options that the caller declares.
fn with_values<'a>(
    alloc: Global,
    command: Command<'a>,
    list: Arg<'a>,
    form: Arg<'a>,
) -> Result<Command<'a>, AllocError>
    ensures { list.entry.global ≡ false → form.entry.global ≡ false
        → IfOk result (λ c. app_of c ≡ with_values (app_of command.entry) (rule_of list.entry) (rule_of form.entry)) }
{
    let command = with(command, flag(alloc, "explain", "explain", text::EXPLAIN))?;
    let command = with(command, flag(alloc, "strict", "strict", text::STRICT))?;
    let command = with(command, list)?;
    with(command, form)
}

/// Adds `--split-input-file`, and an option that the caller declares.
fn with_inputs<'a>(
    alloc: Global,
    command: Command<'a>,
    live: Arg<'a>,
) -> Result<Command<'a>, AllocError>
    ensures { live.entry.global ≡ false
        → IfOk result (λ c. app_of c ≡ with_inputs (app_of command.entry) (rule_of live.entry)) }
{
    let command = with(command, split(alloc))?;
    with(command, live)
}

/// Declares the command line of the program.
#[tactic(auto, unfolding(crate::specs::Arguments::program))]
pub(crate) fn command<'a>(alloc: Global) -> Result<Command<'a>, AllocError>
    ensures { IfOk result (λ c. app_of c ≡ program) }
{
    let command = with_basics(alloc, with_files(alloc, titled(alloc))?)?;
    let command = with_values(alloc, command, analyses(alloc), output_format(alloc))?;
    with_inputs(alloc, command, interactive(alloc))
}

/// Declares `--analyses` with the items that a list may have.
fn listed_analyses<'a>(alloc: Global) -> Arg<'a> {
    analyses(alloc)
        .value_delimiter(',')
        .value_parser(ANALYSES)
        .hide_possible_values(true)
}

/// Declares `--format` with its values.
fn listed_format<'a>(alloc: Global) -> Arg<'a> {
    output_format(alloc)
        .value_parser(FORMATS)
        .hide_possible_values(true)
}

/// Declares `--interactive` with the arguments that it excludes. These name files or commands, and with
/// `--interactive` lines come from standard input only.
fn exclusive_interactive<'a>(alloc: Global) -> Result<Arg<'a>, AllocError> {
    interactive(alloc)
        .conflicts_with("module")?
        .conflicts_with("script")?
        .conflicts_with("command")?
        .conflicts_with("output")?
        .conflicts_with("split")
}

/// Declares the command line of the program for the texts of its errors. It also has the values of `--analyses` and
/// `--format`, and the arguments that exclude each other.
pub(crate) fn worded_command<'a>(alloc: Global) -> Result<Command<'a>, AllocError> {
    let command = with_basics(alloc, with_files(alloc, titled(alloc))?)?;
    let command = with_values(alloc, command, listed_analyses(alloc), listed_format(alloc))?;
    with_inputs(alloc, command, exclusive_interactive(alloc)?)
}
