//! Parses the lines of a script.
ghost use Rattle.std.specs.Prelude.{◌≡◌, Some};
ghost use Rattle.std.specs.Option.{option_map};
ghost use Rattle.rewriter_machine.specs.Commands as said;
ghost use Rattle.mlir_work_script.specs.Commands.{said_of, spoken_of, with_kind, set_operand_in, move_in, set_attr_in};
ghost use Rattle.mlir_work_script.specs.Commands.{drop_attr_in, erase_in, insert_in, replace_in, alone, limit_in};
ghost use Rattle.mlir_work_script.specs.Commands.{apply_in, canon_in, convert_in, entry_command, mark_command, panel_command};
ghost use Rattle.mlir_work_script.specs.Commands.{transforming_command, command_of, line_says, text_says};

use crate::expected_refusal::{command_after, expected_in};
use crate::registry_command::{RegistryCommand, parse_registry_command};
use crate::session_command::{SessionCommand, parse_session_command};
use ir_event::trees::value::Value;
use ir_event::types::ids::OpId;
use mlir_work_script_base::clauses::{Clauses, clauses_in, mode_named};
use mlir_work_script_base::insertion_points::{InsertionPoint, split_insertion_point};
use mlir_work_script_base::keys::{Key, split_key};
use mlir_work_script_base::kind::{Kind, kind_named};
use mlir_work_script_base::numbers::parse_number;
use mlir_work_script_base::rule_name::{RuleName, rule_named};
use mlir_work_script_base::values::{op_named, value_named};
use mlir_work_script_base::words::{is_text, split_word, trim};

/// An editing or report command of a script.
#[derive(Clone, Copy)]
pub enum Command<'a> {
    /// `report KIND` shows the report rows of an analysis.
    Report(Kind),
    /// `print` shows the module.
    Print,
    /// `set-operand #N K VALUE` sets an operand of an operation.
    SetOperand {
        /// The operation.
        op: OpId,
        /// The index of the operand.
        operand: u32,
        /// The new operand.
        value: Value,
    },
    /// `replace VALUE VALUE` replaces all uses of one value by another value.
    Replace {
        /// The value whose uses are replaced.
        old: Value,
        /// The value that replaces it.
        new: Value,
    },
    /// `erase #N` erases an operation and everything inside it.
    Erase(OpId),
    /// `move #N PLACE` moves an operation and everything inside it.
    Move {
        /// The operation.
        op: OpId,
        /// The insertion point.
        point: InsertionPoint,
    },
    /// `insert PLACE OPERATION` inserts an operation and everything inside it.
    Insert {
        /// The insertion point.
        point: InsertionPoint,
        /// The text of the operation.
        operation: &'a [u8],
    },
    /// `set-attr #N KEY ATTRIBUTE` sets an attribute of an operation.
    SetAttr {
        /// The operation.
        op: OpId,
        /// The attribute's key.
        key: Key<'a>,
        /// The text of the attribute.
        attribute: &'a [u8],
    },
    /// `drop-attr #N KEY` removes an attribute of an operation.
    DropAttr {
        /// The operation.
        op: OpId,
        /// The attribute's key.
        key: Key<'a>,
    },
    /// `canon` and `canon limit N` canonicalize until no rule applies or the limit is reached.
    Canon(Option<u32>),
    /// `convert MODE CLAUSES` converts illegal operations. A refused conversion changes nothing.
    Convert {
        /// Whether the conversion is full: each operation must become legal, even one that no clause names.
        full: bool,
        /// What is legal, and which rules are tried.
        clauses: Clauses<'a>,
    },
    /// `sweep` erases the private symbols that nothing reaches.
    Sweep,
    /// `apply RULE #N` applies a rule at an operation, if it matches there.
    Apply {
        /// The rule, by its number or its word.
        rule: RuleName<'a>,
        /// The operation.
        op: OpId,
    },
    /// `begin` pushes a mark of the module.
    Begin,
    /// `commit` pops the newest mark and keeps the edits since it.
    Commit,
    /// `rollback` undoes the edits since the newest mark, and pops the mark.
    Rollback,
    /// `detach KIND` detaches an analysis.
    Detach(Kind),
    /// `resync KIND` computes an analysis again.
    Resync(Kind),
}

/// A parsed line of a script.
#[derive(Clone, Copy)]
pub enum Line<'a> {
    /// An empty line or a comment.
    Empty,
    /// A line that can't be parsed.
    BadCommand,
    /// A command on the rewriter.
    Command(Command<'a>),
    /// A session command.
    Session(SessionCommand<'a>),
    /// A command on the pattern registry.
    Registry(RegistryCommand<'a>),
}

/// Parses the arguments of `report KIND`.
fn report(rest: &[u8]) -> Option<Command<'_>>
    ensures { option_map said_of result ≡ with_kind said.Report rest.now }
{
    let (kind, left) = split_word(rest);
    if !left.is_empty() {
        return None;
    }
    let kind = kind_named(kind)?;
    Some(Command::Report(kind))
}

/// Parses the arguments of `detach KIND`.
fn detach(rest: &[u8]) -> Option<Command<'_>>
    ensures { option_map said_of result ≡ with_kind said.Detach rest.now }
{
    let (kind, left) = split_word(rest);
    if !left.is_empty() {
        return None;
    }
    let kind = kind_named(kind)?;
    Some(Command::Detach(kind))
}

/// Parses the arguments of `resync KIND`.
fn resync(rest: &[u8]) -> Option<Command<'_>>
    ensures { option_map said_of result ≡ with_kind said.Resync rest.now }
{
    let (kind, left) = split_word(rest);
    if !left.is_empty() {
        return None;
    }
    let kind = kind_named(kind)?;
    Some(Command::Resync(kind))
}

/// Parses the arguments of `set-operand #N K VALUE`.
fn set_operand(rest: &[u8]) -> Option<Command<'_>>
    ensures { option_map said_of result ≡ set_operand_in rest.now }
{
    let (op, rest) = split_word(rest);
    let (operand, rest) = split_word(rest);
    let (value, left) = split_word(rest);
    if !left.is_empty() {
        return None;
    }
    let op = op_named(op)?;
    let operand = parse_number(operand)?;
    let value = value_named(value)?;
    Some(Command::SetOperand { op, operand, value })
}

/// Parses the arguments of `replace VALUE VALUE`.
fn replace(rest: &[u8]) -> Option<Command<'_>>
    ensures { option_map said_of result ≡ replace_in rest.now }
{
    let (old, rest) = split_word(rest);
    let (new, left) = split_word(rest);
    if !left.is_empty() {
        return None;
    }
    let old = value_named(old)?;
    let new = value_named(new)?;
    Some(Command::Replace { old, new })
}

/// Parses the argument of `erase #N`.
fn erase(rest: &[u8]) -> Option<Command<'_>>
    ensures { option_map said_of result ≡ erase_in rest.now }
{
    let (op, left) = split_word(rest);
    if !left.is_empty() {
        return None;
    }
    let op = op_named(op)?;
    Some(Command::Erase(op))
}

/// Parses the arguments of `insert PLACE OPERATION`.
fn insert(rest: &[u8]) -> Option<Command<'_>>
    ensures { option_map said_of result ≡ insert_in rest.now }
{
    let Some((point, operation)) = split_insertion_point(rest) else {
        return None;
    };
    if operation.is_empty() {
        return None;
    }
    Some(Command::Insert { point, operation })
}

/// Parses `print`, which has no arguments.
fn print(rest: &[u8]) -> Option<Command<'_>>
    ensures { option_map said_of result ≡ alone rest.now (Some said.Print) }
{
    if !rest.is_empty() {
        return None;
    }
    Some(Command::Print)
}

/// Parses `limit N`.
fn parse_limit(text: &[u8]) -> Option<Command<'_>>
    ensures { option_map said_of result ≡ limit_in text.now }
{
    let (name, rest) = split_word(text);
    if name != b"limit".as_slice() {
        return None;
    }
    let (limit, left) = split_word(rest);
    if !left.is_empty() {
        return None;
    }
    let limit = parse_number(limit)?;
    Some(Command::Canon(Some(limit)))
}

/// Parses the arguments of `canon [limit N]`.
fn canon(rest: &[u8]) -> Option<Command<'_>>
    ensures { option_map said_of result ≡ canon_in rest.now }
{
    if rest.is_empty() {
        return Some(Command::Canon(None));
    }
    parse_limit(rest)
}

/// Parses the arguments of `convert MODE CLAUSES`.
fn convert(rest: &[u8]) -> Option<Command<'_>>
    ensures { option_map said_of result ≡ convert_in rest.now }
{
    let (mode, rest) = split_word(rest);
    let full = mode_named(mode)?;
    let clauses = clauses_in(rest)?;
    Some(Command::Convert { full, clauses })
}

/// Parses `sweep`, which has no arguments.
fn sweep(rest: &[u8]) -> Option<Command<'_>>
    ensures { option_map said_of result ≡ alone rest.now (Some said.Sweep) }
{
    if !rest.is_empty() {
        return None;
    }
    Some(Command::Sweep)
}

/// Parses the arguments of `apply RULE #N`.
fn parse_apply(rest: &[u8]) -> Option<Command<'_>>
    ensures { option_map said_of result ≡ apply_in rest.now }
{
    let (rule, rest) = split_word(rest);
    let (op, left) = split_word(rest);
    if !left.is_empty() {
        return None;
    }
    let rule = rule_named(rule)?;
    let op = op_named(op)?;
    Some(Command::Apply { rule, op })
}

/// Parses `begin`, which has no arguments.
fn parse_begin(rest: &[u8]) -> Option<Command<'_>>
    ensures { option_map said_of result ≡ alone rest.now (Some said.Begin) }
{
    if !rest.is_empty() {
        return None;
    }
    Some(Command::Begin)
}

/// Parses `commit`, which has no arguments.
fn commit(rest: &[u8]) -> Option<Command<'_>>
    ensures { option_map said_of result ≡ alone rest.now (Some said.Commit) }
{
    if !rest.is_empty() {
        return None;
    }
    Some(Command::Commit)
}

/// Parses `rollback`, which has no arguments.
fn rollback(rest: &[u8]) -> Option<Command<'_>>
    ensures { option_map said_of result ≡ alone rest.now (Some said.Rollback) }
{
    if !rest.is_empty() {
        return None;
    }
    Some(Command::Rollback)
}

/// Parses the arguments of `move #N PLACE`.
fn move_op(rest: &[u8]) -> Option<Command<'_>>
    ensures { option_map said_of result ≡ move_in rest.now }
{
    let (op, rest) = split_word(rest);
    let op = op_named(op)?;
    let Some((point, left)) = split_insertion_point(rest) else {
        return None;
    };
    if !left.is_empty() {
        return None;
    }
    Some(Command::Move { op, point })
}

/// Parses the arguments of `set-attr #N KEY ATTRIBUTE`.
fn set_attr(rest: &[u8]) -> Option<Command<'_>>
    ensures { option_map said_of result ≡ set_attr_in rest.now }
{
    let (op, rest) = split_word(rest);
    let op = op_named(op)?;
    let (key, attribute) = split_key(rest)?;
    if attribute.is_empty() {
        return None;
    }
    Some(Command::SetAttr { op, key, attribute })
}

/// Parses the arguments of `drop-attr #N KEY`.
fn drop_attr(rest: &[u8]) -> Option<Command<'_>>
    ensures { option_map said_of result ≡ drop_attr_in rest.now }
{
    let (op, rest) = split_word(rest);
    let op = op_named(op)?;
    let (key, left) = split_key(rest)?;
    if !left.is_empty() {
        return None;
    }
    Some(Command::DropAttr { op, key })
}

/// Parses a command that transforms the module, or a command on marks.
fn transforming_command<'a>(name: &[u8], rest: &'a [u8]) -> Option<Command<'a>>
    ensures { option_map said_of result ≡ transforming_command name.now rest.now }
{
    if name == b"canon".as_slice() {
        return canon(rest);
    }
    if name == b"convert".as_slice() {
        return convert(rest);
    }
    if name == b"sweep".as_slice() {
        return sweep(rest);
    }
    if name == b"apply".as_slice() {
        return parse_apply(rest);
    }
    mark_command(name, rest)
}

/// Parses a command on marks.
fn mark_command<'a>(name: &[u8], rest: &'a [u8]) -> Option<Command<'a>>
    ensures { option_map said_of result ≡ mark_command name.now rest.now }
{
    if name == b"begin".as_slice() {
        return parse_begin(rest);
    }
    if name == b"commit".as_slice() {
        return commit(rest);
    }
    if name == b"rollback".as_slice() {
        return rollback(rest);
    }
    None
}

/// Parses a command that shows something, is on an analysis, transforms the module, or is on marks.
fn panel_command<'a>(name: &[u8], rest: &'a [u8]) -> Option<Command<'a>>
    ensures { option_map said_of result ≡ panel_command name.now rest.now }
{
    if name == b"report".as_slice() {
        return report(rest);
    }
    if name == b"print".as_slice() {
        return print(rest);
    }
    if name == b"detach".as_slice() {
        return detach(rest);
    }
    if name == b"resync".as_slice() {
        return resync(rest);
    }
    transforming_command(name, rest)
}

/// Parses a command that edits attributes.
fn entry_command<'a>(name: &[u8], rest: &'a [u8]) -> Option<Command<'a>>
    ensures { option_map said_of result ≡ entry_command name.now rest.now }
{
    if name == b"set-attr".as_slice() {
        return set_attr(rest);
    }
    if name == b"drop-attr".as_slice() {
        return drop_attr(rest);
    }
    panel_command(name, rest)
}

/// Parses a trimmed line as a command.
fn command_in(text: &[u8]) -> Option<Command<'_>>
    ensures { option_map said_of result ≡ command_of text.now }
{
    let (name, rest) = split_word(text);
    if name == b"set-operand".as_slice() {
        return set_operand(rest);
    }
    if name == b"replace".as_slice() {
        return replace(rest);
    }
    if name == b"erase".as_slice() {
        return erase(rest);
    }
    if name == b"move".as_slice() {
        return move_op(rest);
    }
    if name == b"insert".as_slice() {
        return insert(rest);
    }
    entry_command(name, rest)
}

/// Parses a text that isn't empty and isn't a comment, or the command after an expected refusal.
fn read_text(text: &[u8]) -> Line<'_>
    ensures { spoken_of result ≡ text_says text.now }
{
    if let Some(session_command) = parse_registry_command(text) {
        return Line::Registry(session_command);
    }
    if let Some(session_command) = parse_session_command(text) {
        return Line::Session(session_command);
    }
    match command_in(text) {
        None => Line::BadCommand,
        Some(command) => Line::Command(command),
    }
}

/// Parses a line, without the refusal that it may expect (`expected_refusal::expected_of`). Spaces, tabs and
/// carriage returns at the ends are ignored. Spaces or tabs separate words. A line that isn't UTF-8 is `BadCommand`,
/// even if it is a comment.
pub fn read_line(line: &[u8]) -> Line<'_>
    ensures { spoken_of result ≡ line_says line.now }
{
    if !is_text(line) {
        return Line::BadCommand;
    }
    let text = trim(line);
    if text.is_empty() || text.starts_with(b"//") {
        return Line::Empty;
    }
    read_text(command_after(expected_in(text), text))
}
