//! Defines a pattern from its text.
ghost use Rattle.std.specs.Prelude.{◌≡◌, Ok, IfOk, OnErr, OnOk, option_map};
ghost use Rattle.ir_text_tokens.specs.Tokens.{skip};
ghost use Rattle.user_patterns_text.specs.Parts.{pattern_view};
ghost use Rattle.user_patterns_text.specs.Refusing.{Returns, begins};
ghost use Rattle.user_patterns_text.specs.Rendered.{IsRendered};
ghost use Rattle.user_patterns_sema_base.specs.Views.{variable_view, variable_views};
ghost use Rattle.user_patterns_data.specs.Shapes.{pattern_model};
ghost use Rattle.user_patterns_registry.specs.Rows.{named_view, named_views};
ghost use Rattle.user_patterns_build.specs.Unified.{ready};
ghost use Rattle.user_patterns_registry.specs.Registry.{LastSpells, added, and_kept, registry_model, defined, kept_of, kept_view, made_ready, headroom_for, model_of_parts, variables_of};

use crate::registry::{PatternRegistry, RegisteredPattern, find};
use crate::rows::NamedVariable;
use ir_text_tokens::lexer::skip;
use ir_text_tokens::refusal::TextRefusal;
use std::alloc::{AllocError, Global};
use user_patterns_build::unification::prepare;
use user_patterns_data::pattern::Pattern;
use user_patterns_sema::analyze::analyze;
use user_patterns_sema_base::names::{Variable, names_of};
use user_patterns_text::error::PatternError;
use user_patterns_text::parts;
use user_patterns_text::printing::print_pattern;
use user_patterns_text::reading::read;
use user_patterns_text::steps::refused;

/// The capacity of a registry, in patterns.
const MOST_PATTERNS: usize = 256;

/// Returns how many bytes are left at the first byte that isn't blank.
fn begins(bytes: &[u8]) -> usize
    ensures { result ≡ begins bytes.now }
{
    skip(bytes).len()
}

/// Returns an error if the name is already defined (`Redefined`) or the registry is full (`TooMany`).
fn headroom_for(registry: &PatternRegistry, name: &[u8], at: usize) -> Result<(), PatternError>
    ensures { Returns (λ _. tt) result (headroom_for name.now at (registry_model registry.now)) }
{
    if find(registry, name).is_some() {
        return Err(refused(TextRefusal::Redefined, at));
    }
    if registry.held.len() >= MOST_PATTERNS {
        return Err(refused(TextRefusal::TooMany, at));
    }
    Ok(())
}

fn copied(alloc: Global, bytes: &[u8]) -> Result<Vec<u8>, AllocError>
    ensures { IfOk result (λ v. v.items ≡ bytes.now) }
{
    let mut found = Vec::new(alloc);
    found.extend_from_slice(bytes)?;
    Ok(found)
}

fn owned(alloc: Global, variable: &Variable<'_>) -> Result<NamedVariable, AllocError>
    ensures { IfOk result (λ n. named_view n ≡ variable_view variable.now) }
{
    let name = copied(alloc, variable.name)?;
    Ok(NamedVariable {
        is_value: variable.is_value,
        name,
    })
}

fn all_owned(alloc: Global, variables: &[Variable<'_>]) -> Result<Vec<NamedVariable>, AllocError>
    ensures { IfOk result (λ v. named_views v.items ≡ variable_views variables.now) }
{
    let mut found = Vec::new(alloc);
    let mut rest = variables;
    'variables: while let [variable, tail @ ..] = rest {
        let named = owned(alloc, variable)?;
        found.push(named)?;
        rest = tail;
    }
    Ok(found)
}

/// Returns the pattern that can be built. Refuses with `TypeMismatch` if there is none.
fn made_ready(alloc: Global, pattern: Pattern) -> Result<Pattern, PatternError>
    ensures { Returns pattern_model result (made_ready (ready (pattern_model pattern))) }
{
    match prepare(alloc, pattern)? {
        Some(pattern) => Ok(pattern),
        None => Err(refused(TextRefusal::TypeMismatch, 0)),
    }
}

/// Returns the pattern of parsed parts, ready to be applied.
#[tactic(auto, unfolding(crate::specs::Registry::model_of_parts))]
fn pattern_of(alloc: Global, parts: &parts::Pattern<'_>) -> Result<Pattern, PatternError>
    ensures { Returns pattern_model result (model_of_parts (pattern_view parts.now)) }
{
    match analyze(alloc, parts) {
        Ok(pattern) => made_ready(alloc, pattern),
        Err(e) => Err(e),
    }
}

/// Returns the variables of the left side.
#[tactic(auto, unfolding(crate::specs::Registry::variables_of))]
fn variables_of(
    alloc: Global,
    parts: &parts::Pattern<'_>,
) -> Result<Vec<NamedVariable>, PatternError>
    ensures { Returns (λ v. named_views v.items) result (variables_of (pattern_view parts.now)) }
{
    let names = match names_of(alloc, parts) {
        Ok(names) => names,
        Err(e) => return Err(e),
    };
    let variables = all_owned(alloc, &names.variables)?;
    Ok(variables)
}

/// Returns the registry entry of a parsed pattern.
#[tactic(auto, unfolding(crate::specs::Registry::kept_of))]
fn kept_of(alloc: Global, parts: &parts::Pattern<'_>) -> Result<RegisteredPattern, PatternError>
    ensures { Returns kept_view result (kept_of (pattern_view parts.now)) }
{
    let variables = match variables_of(alloc, parts) {
        Ok(variables) => variables,
        Err(e) => return Err(e),
    };
    let pattern = match pattern_of(alloc, parts) {
        Ok(pattern) => pattern,
        Err(e) => return Err(e),
    };
    let name = copied(alloc, parts.name)?;
    let text = print_pattern(alloc, parts)?;
    Ok(RegisteredPattern {
        name,
        text,
        variables,
        pattern,
        said: None,
    })
}

/// Appends a pattern.
fn add(registry: &mut PatternRegistry, held: RegisteredPattern) -> Result<(), PatternError>
    ensures gives { Returns (λ _. registry_model registry.new) result (Ok (and_kept (registry_model registry.old) (kept_view held))) }
    ensures stays { OnErr result (registry_model registry.new ≡ registry_model registry.old) }
{
    registry.held.push(held)?;
    Ok(())
}

/// Appends the pattern of parsed parts. A refusal leaves the registry unchanged.
fn add_read(
    alloc: Global,
    registry: &mut PatternRegistry,
    text: &[u8],
    parts: &parts::Pattern<'_>,
) -> Result<(), PatternError>
    requires { IsRendered text.now parts.now }
    ensures gives { Returns (λ _. registry_model registry.new) result (added (registry_model registry.old) (pattern_view parts.now)) }
    ensures stays { OnErr result (registry_model registry.new ≡ registry_model registry.old) }
    ensures rendered { OnOk result (LastSpells text.now (registry_model registry.new)) }
{
    match kept_of(alloc, parts) {
        Ok(held) => add(registry, held),
        Err(e) => Err(e),
    }
}

/// Appends the pattern that a text spells. A refusal leaves the registry unchanged.
///
/// Refusals, each with how many bytes of the text are left at the error, in order: those of `read`; at the name
/// `Redefined` if a pattern of that name exists, and `TooMany` if the registry has 256 patterns; those of semantic
/// analysis.
#[tactic(auto, unfolding(crate::specs::Registry::defined))]
pub fn define(
    alloc: Global,
    registry: &mut PatternRegistry,
    text: &[u8],
) -> Result<(), PatternError>
    ensures gives { Returns (λ _. registry_model registry.new) result (defined (registry_model registry.old) text.now) }
    ensures stays { OnErr result (registry_model registry.new ≡ registry_model registry.old) }
    ensures rendered { OnOk result (LastSpells text.now (registry_model registry.new)) }
{
    let parts = match read(alloc, text) {
        Ok(parts) => parts,
        Err(e) => return Err(e),
    };
    match headroom_for(registry, parts.name, begins(text)) {
        Ok(()) => {}
        Err(e) => return Err(e),
    }
    add_read(alloc, registry, text, &parts)
}
