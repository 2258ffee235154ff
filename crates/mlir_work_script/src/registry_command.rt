//! Parses the commands on the pattern registry of a session.
ghost use Rattle.std.specs.Prelude.{◌≡◌, option_map};
ghost use Rattle.mlir_work_script.specs.RegistryCommands.{registry_command_in, registry_command_named, registry_command_of, check_in, checked_in};
ghost use Rattle.mlir_work_script.specs.RegistryCommands.{define_in, forget_in, is_name, patterns_in, redefine_in, checked_or_sampled_in, unsized_check, width_in};

use mlir_work_script_base::numbers::parse_number;
use mlir_work_script_base::words::split_word;

/// A command on the pattern registry.
#[derive(Clone, Copy)]
pub enum RegistryCommand<'a> {
    /// `pattern NAME LEFT => RIGHT` defines a user pattern.
    Define(&'a [u8]),
    /// `pattern! NAME LEFT => RIGHT` defines a user pattern, in place of the one of this name if there is one.
    Redefine(&'a [u8]),
    /// `forget NAME` removes a pattern, with the result of its last check.
    Forget(&'a [u8]),
    /// `patterns` lists each pattern with the result of its last check.
    Patterns,
    /// `check NAME [width W]` checks a pattern.
    Check {
        /// The name, which may be unknown.
        name: &'a [u8],
        /// The maximum width, if the line gives one.
        width: Option<u32>,
    },
    /// `check all` checks each pattern in order. It checks the pattern named `all` alone if there is one.
    CheckAll,
    /// `check NAME width W sampled` tests a pattern with edge values and random values at one width.
    Sample {
        /// The name, which may be unknown.
        name: &'a [u8],
        /// The width.
        width: u32,
    },
}

/// Parses the argument of `pattern TEXT`.
fn define(rest: &[u8]) -> Option<RegistryCommand<'_>>
    ensures { option_map registry_command_of result ≡ define_in rest.now }
{
    if rest.is_empty() {
        return None;
    }
    Some(RegistryCommand::Define(rest))
}

/// Parses the argument of `pattern! TEXT`.
fn redefine(rest: &[u8]) -> Option<RegistryCommand<'_>>
    ensures { option_map registry_command_of result ≡ redefine_in rest.now }
{
    if rest.is_empty() {
        return None;
    }
    Some(RegistryCommand::Redefine(rest))
}

/// Parses `patterns`, which has no arguments.
fn patterns<'a>(rest: &[u8]) -> Option<RegistryCommand<'a>>
    ensures { option_map registry_command_of result ≡ patterns_in rest.now }
{
    if !rest.is_empty() {
        return None;
    }
    Some(RegistryCommand::Patterns)
}

/// Returns whether a word is a name: it isn't empty and doesn't begin with a digit.
fn is_name(word: &[u8]) -> bool
    ensures { result ≡ is_name word.now }
{
    match word {
        [] => false,
        [first, ..] => !first.is_ascii_digit(),
    }
}

/// Parses the argument of `forget NAME`.
fn forget(rest: &[u8]) -> Option<RegistryCommand<'_>>
    ensures { option_map registry_command_of result ≡ forget_in rest.now }
{
    let (name, left) = split_word(rest);
    if !is_name(name) || !left.is_empty() {
        return None;
    }
    Some(RegistryCommand::Forget(name))
}

/// Parses the text after a width: nothing, or `sampled`.
fn parse_try<'a>(name: &'a [u8], rest: &[u8], width: u32) -> Option<RegistryCommand<'a>>
    ensures { option_map registry_command_of result ≡ checked_or_sampled_in name.now rest.now width }
{
    if rest.is_empty() {
        return Some(RegistryCommand::Check {
            name,
            width: Some(width),
        });
    }
    let (word, left) = split_word(rest);
    if word != b"sampled".as_slice() || !left.is_empty() {
        return None;
    }
    Some(RegistryCommand::Sample { name, width })
}

/// Parses `width W [sampled]`.
fn width<'a>(name: &'a [u8], text: &[u8]) -> Option<RegistryCommand<'a>>
    ensures { option_map registry_command_of result ≡ width_in name.now text.now }
{
    let (word, rest) = split_word(text);
    if word != b"width".as_slice() {
        return None;
    }
    let (width, left) = split_word(rest);
    let width = parse_number(width)?;
    parse_try(name, left, width)
}

/// Returns the command of `check NAME`. `check all` checks each pattern.
fn unsized_check(name: &[u8]) -> RegistryCommand<'_>
    ensures { registry_command_of result ≡ unsized_check name.now }
{
    if name == b"all".as_slice() {
        return RegistryCommand::CheckAll;
    }
    RegistryCommand::Check { name, width: None }
}

/// Parses the text after a name: nothing, or `width W [sampled]`.
fn checked<'a>(name: &'a [u8], rest: &[u8]) -> Option<RegistryCommand<'a>>
    ensures { option_map registry_command_of result ≡ checked_in name.now rest.now }
{
    if rest.is_empty() {
        return Some(unsized_check(name));
    }
    width(name, rest)
}

/// Parses the arguments of `check NAME [width W [sampled]]` and `check all`.
fn check(rest: &[u8]) -> Option<RegistryCommand<'_>>
    ensures { option_map registry_command_of result ≡ check_in rest.now }
{
    let (name, rest) = split_word(rest);
    if !is_name(name) {
        return None;
    }
    checked(name, rest)
}

/// Parses a registry command from its name and the rest of the line.
fn registry_command_named<'a>(name: &[u8], rest: &'a [u8]) -> Option<RegistryCommand<'a>>
    ensures { option_map registry_command_of result ≡ registry_command_named name.now rest.now }
{
    if name == b"pattern".as_slice() {
        return define(rest);
    }
    if name == b"pattern!".as_slice() {
        return redefine(rest);
    }
    if name == b"forget".as_slice() {
        return forget(rest);
    }
    if name == b"patterns".as_slice() {
        return patterns(rest);
    }
    if name == b"check".as_slice() {
        return check(rest);
    }
    None
}

/// Parses a trimmed line as a registry command.
pub(crate) fn parse_registry_command(text: &[u8]) -> Option<RegistryCommand<'_>>
    ensures { option_map registry_command_of result ≡ registry_command_in text.now }
{
    let (name, rest) = split_word(text);
    registry_command_named(name, rest)
}
