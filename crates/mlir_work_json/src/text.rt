//! Converts lines and whole outputs to JSON.
ghost use Rattle.std.specs.Prelude.{◌≡◌, [], ◌∷◌, ◌++◌, map, Some, true, option_map, IfOk, OnOk};
ghost use Rattle.std.specs.Str.{is_utf8};
ghost use Rattle.serde_json.specs.Read.{read};
ghost use Rattle.serde_json.specs.View.{view};
ghost use Rattle.mlir_work_json.specs.Cuts.{parts};
ghost use Rattle.mlir_work_json.specs.Items.{HasMembers};
ghost use Rattle.mlir_work_json.specs.Lines.{begins_object, form_members, json_line, json_text, line_data, members_data, object_only, own_object};
ghost use Rattle.mlir_work_script_base.specs.Lines.{is_newline};

use crate::form::{LineKind, form_of};
use crate::members::{Object, set_flag, set_text};
use crate::replies::{add_attach_refused, add_module_refused, set_heading, set_reply};
use crate::rows::{
    add_not_legalised, set_applied, set_checked, set_constant, set_dead, set_definition,
    set_diagnostic, set_effect, set_fired_pattern, set_fired_rule, set_mismatch, set_outcome,
    set_pattern, set_reason, set_reference, set_rewritten, set_unproved, set_unreached,
    set_unresolved, set_use,
};
use mlir_work_script_base::cuts::cut_at;
use mlir_work_script_base::words::is_text;
use serde_json::{Category, Map, Value};
use std::alloc::{AllocError, Global};

/// Sets the members of a line of this kind.
fn set_form(
    object: &mut Object,
    alloc: Global,
    form: &LineKind,
    line: &[u8],
) -> Result<(), AllocError>
    ensures { HasMembers result object.old object.new (form_members form.now line.now) }
{
    match form {
        LineKind::Reply => set_reply(object, alloc, line),
        LineKind::Heading => set_heading(object, alloc, line),
        LineKind::ModuleRefused => add_module_refused(object, alloc, line),
        LineKind::AttachRefused => add_attach_refused(object, alloc, line),
        LineKind::Module => set_text(object, alloc, "module", line),
        LineKind::Use => set_use(object, alloc, line),
        LineKind::Constant => set_constant(object, alloc, line),
        LineKind::Dead => set_dead(object, alloc, line),
        LineKind::Unreached => set_unreached(object, alloc, line),
        LineKind::Diagnostic => set_diagnostic(object, alloc, line),
        LineKind::Effect => set_effect(object, alloc, line),
        LineKind::Definition => set_definition(object, alloc, line),
        LineKind::Reference => set_reference(object, alloc, line),
        LineKind::Unresolved => set_unresolved(object, alloc, line),
        LineKind::Mismatch => set_mismatch(object, alloc, line),
        LineKind::Reason => set_reason(object, alloc, line),
        LineKind::NotLegalised => add_not_legalised(object, alloc, line),
        LineKind::AppliedRule => set_rewritten(object, alloc, line),
        LineKind::AppliedPattern => set_applied(object, alloc, line),
        LineKind::FiredRule => set_fired_rule(object, alloc, line),
        LineKind::FiredPattern => set_fired_pattern(object, alloc, line),
        LineKind::Unproved => set_unproved(object, alloc, line),
        LineKind::Checked => set_checked(object, alloc, line),
        LineKind::Pattern => set_pattern(object, alloc, line),
        LineKind::Outcome => set_outcome(object, alloc, line),
        LineKind::End => set_flag(object, alloc, "end"),
        LineKind::Other => set_text(object, alloc, "text", line),
    }
}

/// Returns the object that a line's members make.
#[tactic(auto, unfolding(crate::specs::Lines::line_members))]
fn members_value(alloc: Global, line: &[u8]) -> Result<Value, AllocError>
    ensures { IfOk result (λ v. view v ≡ members_data line.now) }
{
    let mut object = Map::new(alloc);
    set_form(&mut object, alloc, &form_of(line), line)?;
    Ok(Value::Object(object))
}

fn begins_object(line: &[u8]) -> bool
    ensures { result ≡ begins_object line.now }
{
    match line {
        [b'{', ..] => true,
        _ => false,
    }
}

/// Returns a value if it is an object.
fn object_only(value: Value) -> Option<Value>
    ensures { option_map view result ≡ object_only (Some (view value)) }
{
    if value.is_object() {
        return Some(value);
    }
    None
}

/// Returns the object that a text is, if it is one.
fn parsed_object(alloc: Global, text: &[u8]) -> Result<Option<Value>, AllocError>
    requires { is_utf8 text.now ≡ true }
    ensures { IfOk result (λ o. option_map view o ≡ object_only (read text.now)) }
{
    let error = match Value::from_slice(alloc, text) {
        Ok(value) => return Ok(object_only(value)),
        Err(error) => error,
    };
    if error.classify() == Category::Memory {
        return Err(AllocError);
    }
    Ok(None)
}

/// Returns the object that a line is, if it is one.
#[tactic(auto, unfolding(crate::specs::Lines::own_object))]
fn own_object(alloc: Global, line: &[u8]) -> Result<Option<Value>, AllocError>
    ensures { IfOk result (λ o. option_map view o ≡ own_object line.now) }
{
    if begins_object(line) && is_text(line) {
        return parsed_object(alloc, line);
    }
    Ok(None)
}

/// Returns a copy of a line.
fn copied(alloc: Global, line: &[u8]) -> Result<Vec<u8>, AllocError>
    ensures { IfOk result (λ copy. copy.items ≡ line.now) }
{
    let mut copy = Vec::new(alloc);
    copy.extend_from_slice(line)?;
    Ok(copy)
}

/// Converts one output line to one line of JSON, both without line feeds. The JSON parses as the object of the line. A
/// line that is a JSON object stays the same.
pub fn json_line(alloc: Global, line: &[u8]) -> Result<Vec<u8>, AllocError>
    ensures json { IfOk result (λ json. json.items ≡ json_line line.now) }
    ensures reads { IfOk result (λ json. read json.items ≡ Some (line_data line.now)) }
{
    match own_object(alloc, line)? {
        Some(_) => return copied(alloc, line),
        None => {}
    }
    members_value(alloc, line)?.to_vec(alloc)
}

/// Appends a line of an output as JSON, with a line feed.
fn write_line(json: &mut Vec<u8>, alloc: Global, line: &[u8]) -> Result<(), AllocError>
    ensures { OnOk result (json.new.items ≡ json.old.items ++ (json_line line.now ++ 10 ∷ [])) }
{
    let text = json_line(alloc, line)?;
    json.extend_from_slice(&text)?;
    json.push(b'\n')?;
    Ok(())
}

/// Converts an output to JSON. Each line becomes one object on one line.
pub fn json_text(alloc: Global, output: &[u8]) -> Result<Vec<u8>, AllocError>
    ensures text { IfOk result (λ json. json.items ≡ json_text output.now) }
    ensures lines { IfOk result (λ json. parts is_newline json.items
        ≡ map json_line (parts is_newline output.now)) }
{
    let mut json = Vec::new(alloc);
    let mut rest = output;
    while !rest.is_empty() {
        let (line, trailing) = cut_at(rest, b'\n');
        write_line(&mut json, alloc, line)?;
        rest = trailing;
    }
    Ok(json)
}
