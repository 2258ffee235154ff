//! Defines a pattern in place of another one.
ghost use Rattle.std.specs.Prelude.{◌≡◌, OnErr, position};
ghost use Rattle.user_patterns_text.specs.Refusing.{Returns};
ghost use Rattle.user_patterns_registry.specs.Registry.{is_named, kept_view, registry_model};
ghost use Rattle.mlir_work_registry.specs.Redefined.{namesake, pattern_of, redefined};

use std::alloc::Global;
use user_patterns_registry::define::define;
use user_patterns_registry::registry::{PatternRegistry, RegisteredPattern};
use user_patterns_text::error::PatternError;
use user_patterns_text::reading::read;

/// Returns the index of the pattern of that name, or `None` if there is none.
fn place_of(held: &[RegisteredPattern], name: &[u8]) -> Option<usize>
    ensures { result ≡ position (λ h. is_named name.now (kept_view h)) held.now }
{
    held.iter().position(
        |one: &RegisteredPattern| -> bool
            ensures { result ≡ is_named name.entry.now (kept_view one.now) }
        { one.name.as_slice() == name },
    )
}

/// Returns the index of the pattern of the name that a text defines, or `None` if there is none.
fn namesake(
    alloc: Global,
    registry: &PatternRegistry,
    text: &[u8],
) -> Result<Option<usize>, PatternError>
    ensures { Returns (λ place. place) result (namesake (registry_model registry.now) text.now) }
{
    match read(alloc, text) {
        Ok(parts) => Ok(place_of(&registry.held, parts.name)),
        Err(e) => Err(e),
    }
}

/// Returns the pattern of a text, without a registry.
fn pattern_of(alloc: Global, text: &[u8]) -> Result<RegisteredPattern, PatternError>
    ensures { Returns kept_view result (pattern_of text.now) }
{
    let mut registry = PatternRegistry::new(alloc);
    match define(alloc, &mut registry, text) {
        Ok(()) => {}
        Err(e) => return Err(e),
    }
    match registry.held.pop() {
        Some(held) => Ok(held),
        None => Err(PatternError::Memory),
    }
}

/// Defines the pattern of a text, in place of the one of its name if there is one. A refusal leaves the registry
/// unchanged.
pub(crate) fn redefine(
    alloc: Global,
    registry: &mut PatternRegistry,
    text: &[u8],
) -> Result<(), PatternError>
    ensures gives { Returns (λ _. registry_model registry.new) result (redefined (registry_model registry.old) text.now) }
    ensures stays { OnErr result (registry_model registry.new ≡ registry_model registry.old) }
{
    let place = match namesake(alloc, registry, text) {
        Ok(Some(place)) => place,
        Ok(None) => return define(alloc, registry, text),
        Err(e) => return Err(e),
    };
    match pattern_of(alloc, text) {
        Ok(held) => {
            registry.held[place] = held;
            Ok(())
        }
        Err(e) => Err(e),
    }
}
