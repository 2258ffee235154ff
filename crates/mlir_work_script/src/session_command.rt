//! Parses session commands: the commands that need more than the rewriter.
ghost use Rattle.std.specs.Prelude.{◌≡◌, None, Some, false, option_map};
ghost use Rattle.mlir_work_script.specs.SessionCommands.{attach_in, canon_command_in, ids_in, limit_in, maybe_traced_in, session_command_in, session_command_named};
ghost use Rattle.mlir_work_script.specs.SessionCommands.{convert_command_in, convert_trace_in};
ghost use Rattle.mlir_work_script.specs.SessionCommands.{at_in, count_in, fired_in, session_command_of, Rewrite, rewrite_in, rule_or_none, ruled_in, show_from_in, show_in, trace_in, why_in, report_in};
ghost use Rattle.mlir_work_script.specs.RuleLists.{names_of};
ghost use Rattle.mlir_work_script_base.specs.RuleNames.{name_of};

use crate::rule_lists::are_items;
use ir_event::subject::Subject;
use ir_event::types::ids::OpId;
use mlir_work_script_base::clauses::{Clauses, clauses_in, mode_named};
use mlir_work_script_base::kind::{Kind, kind_named};
use mlir_work_script_base::numbers::parse_number;
use mlir_work_script_base::rule_name::{RuleName, rule_named};
use mlir_work_script_base::subject::subject_named;
use mlir_work_script_base::values::op_named;
use mlir_work_script_base::words::split_word;

/// A session command.
#[derive(Clone, Copy)]
pub enum SessionCommand<'a> {
    /// `attach KIND` creates the analysis of a kind and attaches it.
    Attach(Kind),
    /// `print ids` shows the module with the ids of its operations.
    PrintIds,
    /// `report KIND of THING` shows the report rows about an operation or a value.
    ReportAbout {
        /// The kind of the analysis.
        kind: Kind,
        /// The operation or value.
        subject: Subject,
    },
    /// `rewrite RULES [proved] [limit N]` and `canon only RULES [proved] [limit N]` apply the named rules until none
    /// applies or the limit is reached.
    Rewrite {
        /// The rules in the order in which they are tried at an operation, as `1-3,7,mine` or `canon`.
        rules: &'a [u8],
        /// Whether the command is refused if no check proves one of the patterns for the module.
        proved: bool,
        /// The rewrite limit, if the line gives one.
        limit: Option<u32>,
    },
    /// `canon trace [limit N]` and `rewrite RULES [proved] trace [limit N]` also trace each rewrite.
    Trace {
        /// The rules, if the line names rules.
        rules: Option<&'a [u8]>,
        /// Whether the command is refused if no check proves one of the patterns for the module.
        proved: bool,
        /// The rewrite limit, if the line gives one.
        limit: Option<u32>,
    },
    /// `canon fired [limit N]` and `rewrite RULES [proved] fired [limit N]` also count which rules and patterns fired in
    /// the last hundred rewrites, if the limit is reached.
    Fired {
        /// The rules, if the line names rules.
        rules: Option<&'a [u8]>,
        /// Whether the command is refused if no check proves one of the patterns for the module.
        proved: bool,
        /// The rewrite limit, if the line gives one.
        limit: Option<u32>,
    },
    /// `convert trace MODE CLAUSES` converts, and traces each applied rule or shows why an operation stays illegal.
    TraceConvert {
        /// Whether the conversion is full: each operation must become legal.
        full: bool,
        /// The clauses.
        clauses: Clauses<'a>,
    },
    /// `canon at #N [limit N]` applies the canonicalization rules at one operation until none applies there or the
    /// limit is reached.
    CanonAt {
        op: OpId,
        /// The rewrite limit, if the line gives one.
        limit: Option<u32>,
    },
    /// `why #N [RULE]` says why rules don't match at an operation.
    Why {
        op: OpId,
        /// The rule, if the line names one. Otherwise the command shows all rules in the table for the operation's
        /// name.
        rule: Option<RuleName<'a>>,
    },
    /// `show all` shows all operations as JSON objects.
    ShowAll,
    /// `show #N [COUNT]` shows at most `count` operations as JSON objects, in pre-order from an operation on.
    ShowFrom {
        op: OpId,
        /// The count, or 1 if the line gives none.
        count: u32,
    },
}

/// Parses the argument of `attach KIND`.
fn attach<'a>(rest: &[u8]) -> Option<SessionCommand<'a>>
    ensures { option_map session_command_of result ≡ attach_in rest.now }
{
    let (kind, left) = split_word(rest);
    if !left.is_empty() {
        return None;
    }
    let kind = kind_named(kind)?;
    Some(SessionCommand::Attach(kind))
}

/// Parses the argument of `print ids`.
fn ids<'a>(rest: &[u8]) -> Option<SessionCommand<'a>>
    ensures { option_map session_command_of result ≡ ids_in rest.now }
{
    if rest != b"ids".as_slice() {
        return None;
    }
    Some(SessionCommand::PrintIds)
}

/// Parses the arguments of `report KIND of THING`.
fn report<'a>(rest: &[u8]) -> Option<SessionCommand<'a>>
    ensures { option_map session_command_of result ≡ report_in rest.now }
{
    let (kind, rest) = split_word(rest);
    let (of, rest) = split_word(rest);
    if of != b"of".as_slice() {
        return None;
    }
    let (thing, left) = split_word(rest);
    if !left.is_empty() {
        return None;
    }
    let kind = kind_named(kind)?;
    let subject = subject_named(thing)?;
    Some(SessionCommand::ReportAbout { kind, subject })
}

/// Parses `[limit N]` at the end of a line. The inner option is `None` if there is no limit.
fn limit(text: &[u8]) -> Option<Option<u32>>
    ensures { result ≡ limit_in text.now }
{
    if text.is_empty() {
        return Some(None);
    }
    let (name, rest) = split_word(text);
    if name != b"limit".as_slice() {
        return None;
    }
    let (limit, left) = split_word(rest);
    if !left.is_empty() {
        return None;
    }
    let limit = parse_number(limit)?;
    Some(Some(limit))
}

/// Parses `[limit N]` after `trace`.
fn trace<'a>(rest: &[u8]) -> Option<SessionCommand<'a>>
    ensures { option_map session_command_of result ≡ trace_in None false rest.now }
{
    let limit = limit(rest)?;
    Some(SessionCommand::Trace {
        rules: None,
        proved: false,
        limit,
    })
}

/// Parses `[limit N]` after a rule list and `trace`.
fn traced<'a>(rules: &'a [u8], proved: bool, rest: &[u8]) -> Option<SessionCommand<'a>>
    ensures { option_map session_command_of result ≡ trace_in (Some (names_of rules.now)) proved rest.now }
{
    let limit = limit(rest)?;
    Some(SessionCommand::Trace {
        rules: Some(rules),
        proved,
        limit,
    })
}

/// Parses `[limit N]` after `fired`.
fn fired<'a>(rest: &[u8]) -> Option<SessionCommand<'a>>
    ensures { option_map session_command_of result ≡ fired_in None false rest.now }
{
    let limit = limit(rest)?;
    Some(SessionCommand::Fired {
        rules: None,
        proved: false,
        limit,
    })
}

/// Parses `[limit N]` after a rule list and `fired`.
fn counted<'a>(rules: &'a [u8], proved: bool, rest: &[u8]) -> Option<SessionCommand<'a>>
    ensures { option_map session_command_of result ≡ fired_in (Some (names_of rules.now)) proved rest.now }
{
    let limit = limit(rest)?;
    Some(SessionCommand::Fired {
        rules: Some(rules),
        proved,
        limit,
    })
}

/// Parses `[limit N]` after a rule list.
fn untraced<'a>(rules: &'a [u8], proved: bool, rest: &[u8]) -> Option<SessionCommand<'a>>
    ensures { option_map session_command_of result ≡ option_map (λ limit. Rewrite (names_of rules.now) proved limit) (limit_in rest.now) }
{
    let limit = limit(rest)?;
    Some(SessionCommand::Rewrite {
        rules,
        proved,
        limit,
    })
}

/// Parses `[trace] [limit N]` or `fired [limit N]` after a rule list and `[proved]`.
fn maybe_traced<'a>(rules: &'a [u8], proved: bool, rest: &[u8]) -> Option<SessionCommand<'a>>
    ensures { option_map session_command_of result ≡ maybe_traced_in (names_of rules.now) proved rest.now }
{
    let (name, trailing) = split_word(rest);
    if name == b"trace".as_slice() {
        return traced(rules, proved, trailing);
    }
    if name == b"fired".as_slice() {
        return counted(rules, proved, trailing);
    }
    untraced(rules, proved, rest)
}

/// Parses `[proved] [trace] [limit N]` or `[proved] fired [limit N]` after a rule list.
fn ruled<'a>(rules: &'a [u8], rest: &[u8]) -> Option<SessionCommand<'a>>
    ensures { option_map session_command_of result ≡ ruled_in (names_of rules.now) rest.now }
{
    let (name, trailing) = split_word(rest);
    if name == b"proved".as_slice() {
        return maybe_traced(rules, true, trailing);
    }
    maybe_traced(rules, false, rest)
}

/// Parses the arguments of `rewrite RULES [proved] [trace] [limit N]` and `rewrite RULES [proved] fired [limit N]`.
fn rewrite(rest: &[u8]) -> Option<SessionCommand<'_>>
    ensures { option_map session_command_of result ≡ rewrite_in rest.now }
{
    let (rules, rest) = split_word(rest);
    if !are_items(rules) {
        return None;
    }
    ruled(rules, rest)
}

/// Parses `#N [limit N]` after `canon at`.
fn canon_at<'a>(rest: &[u8]) -> Option<SessionCommand<'a>>
    ensures { option_map session_command_of result ≡ at_in rest.now }
{
    let (op, rest) = split_word(rest);
    let op = op_named(op)?;
    let limit = limit(rest)?;
    Some(SessionCommand::CanonAt { op, limit })
}

/// Parses `[RULE]` at the end of a line. The inner option is `None` if there is no rule.
fn rule_or_none(text: &[u8]) -> Option<Option<RuleName<'_>>>
    ensures { option_map (λ rule. option_map name_of rule) result ≡ rule_or_none text.now }
{
    if text.is_empty() {
        return Some(None);
    }
    let (rule, left) = split_word(text);
    if !left.is_empty() {
        return None;
    }
    let rule = rule_named(rule)?;
    Some(Some(rule))
}

/// Parses the arguments of `why #N [RULE]`.
fn why(rest: &[u8]) -> Option<SessionCommand<'_>>
    ensures { option_map session_command_of result ≡ why_in rest.now }
{
    let (op, rest) = split_word(rest);
    let op = op_named(op)?;
    let rule = rule_or_none(rest)?;
    Some(SessionCommand::Why { op, rule })
}

/// Parses `[COUNT]` at the end of a line.
fn count_or_one(text: &[u8]) -> Option<u32>
    ensures { result ≡ count_in text.now }
{
    if text.is_empty() {
        return Some(1);
    }
    let (count, left) = split_word(text);
    if !left.is_empty() {
        return None;
    }
    parse_number(count)
}

/// Parses `#N [COUNT]` after `show`.
fn show_from<'a>(rest: &[u8]) -> Option<SessionCommand<'a>>
    ensures { option_map session_command_of result ≡ show_from_in rest.now }
{
    let (op, rest) = split_word(rest);
    let op = op_named(op)?;
    let count = count_or_one(rest)?;
    Some(SessionCommand::ShowFrom { op, count })
}

/// Parses the arguments of `show all` and `show #N [COUNT]`.
fn show<'a>(rest: &[u8]) -> Option<SessionCommand<'a>>
    ensures { option_map session_command_of result ≡ show_in rest.now }
{
    if rest == b"all".as_slice() {
        return Some(SessionCommand::ShowAll);
    }
    show_from(rest)
}

/// Parses the arguments of `canon only`, which are those of `rewrite`, and of `canon trace [limit N]`,
/// `canon fired [limit N]` and `canon at #N [limit N]`.
fn canon(rest: &[u8]) -> Option<SessionCommand<'_>>
    ensures { option_map session_command_of result ≡ canon_command_in rest.now }
{
    let (name, rest) = split_word(rest);
    if name == b"only".as_slice() {
        return rewrite(rest);
    }
    if name == b"trace".as_slice() {
        return trace(rest);
    }
    if name == b"fired".as_slice() {
        return fired(rest);
    }
    if name == b"at".as_slice() {
        return canon_at(rest);
    }
    None
}

/// Parses a mode and clauses after `convert trace`.
fn convert_traced(rest: &[u8]) -> Option<SessionCommand<'_>>
    ensures { option_map session_command_of result ≡ convert_trace_in rest.now }
{
    let (mode, rest) = split_word(rest);
    let full = mode_named(mode)?;
    let clauses = clauses_in(rest)?;
    Some(SessionCommand::TraceConvert { full, clauses })
}

/// Parses the arguments of `convert trace MODE CLAUSES`.
fn convert(rest: &[u8]) -> Option<SessionCommand<'_>>
    ensures { option_map session_command_of result ≡ convert_command_in rest.now }
{
    let (name, rest) = split_word(rest);
    if name != b"trace".as_slice() {
        return None;
    }
    convert_traced(rest)
}

/// Parses a session command from its name and the rest of the line.
fn session_command_named<'a>(name: &[u8], rest: &'a [u8]) -> Option<SessionCommand<'a>>
    ensures { option_map session_command_of result ≡ session_command_named name.now rest.now }
{
    if name == b"attach".as_slice() {
        return attach(rest);
    }
    if name == b"print".as_slice() {
        return ids(rest);
    }
    if name == b"report".as_slice() {
        return report(rest);
    }
    if name == b"rewrite".as_slice() {
        return rewrite(rest);
    }
    if name == b"canon".as_slice() {
        return canon(rest);
    }
    if name == b"convert".as_slice() {
        return convert(rest);
    }
    if name == b"why".as_slice() {
        return why(rest);
    }
    if name == b"show".as_slice() {
        return show(rest);
    }
    None
}

/// Parses a trimmed line as a session command.
pub(crate) fn parse_session_command(text: &[u8]) -> Option<SessionCommand<'_>>
    ensures { option_map session_command_of result ≡ session_command_in text.now }
{
    let (name, rest) = split_word(text);
    session_command_named(name, rest)
}
