//! Patterns by name.
ghost use Rattle.std.specs.Prelude.{◌≡◌, [], map, not, option_map};
ghost use Rattle.user_patterns_registry.specs.Registry.{forgotten, registry_model, found, is_named, kept_view, kept_views, noted, noted_one};

use crate::check_result::CheckSummary;
use crate::rows::NamedVariable;
use std::alloc::Global;
use user_patterns_data::pattern::Pattern;

/// A pattern that can be applied: its name, its printed text, the variables of its left side in their order, and the
/// summary of its last check.
pub struct RegisteredPattern {
    pub name: Vec<u8>,
    pub text: Vec<u8>,
    pub variables: Vec<NamedVariable>,
    pub pattern: Pattern,
    pub said: Option<CheckSummary>,
}

impl Drop for RegisteredPattern {
    /// Frees the pattern. It is written out, so that the crates above call one function.
    fn drop(self) {
        let RegisteredPattern {
            name: _,
            text: _,
            variables: _,
            pattern: _,
            said: _,
        } = self;
    }
}

/// The defined patterns, in the order of their definitions.
#[derive(Drop)]
pub struct PatternRegistry {
    pub held: Vec<RegisteredPattern>,
}

impl PatternRegistry {
    /// Returns an empty registry.
    pub fn new(alloc: Global) -> PatternRegistry
        ensures { registry_model result ≡ [] }
    {
        PatternRegistry {
            held: Vec::new(alloc),
        }
    }
}

fn is_named(held: &RegisteredPattern, name: &[u8]) -> bool
    ensures { result ≡ is_named name.now (kept_view held.now) }
{
    held.name.as_slice() == name
}

#[tactic(auto, unfolding(crate::specs::Registry::found))]
fn find_in<'a>(held: &'a [RegisteredPattern], name: &[u8]) -> Option<&'a RegisteredPattern>
    ensures { option_map (λ h. kept_view h.now) result ≡ found name.now (kept_views held.now) }
{
    let mut rest = held;
    'held: while let [first, tail @ ..] = rest {
        if is_named(first, name) {
            return Some(first);
        }
        rest = tail;
    }
    None
}

/// Returns the pattern of that name, or `None` if there is none.
pub fn find<'a>(registry: &'a PatternRegistry, name: &[u8]) -> Option<&'a RegisteredPattern>
    ensures { option_map (λ h. kept_view h.now) result ≡ found name.now (registry_model registry.now) }
{
    find_in(&registry.held, name)
}

/// Records the summary of a check if the pattern has that name.
fn note_one(held: &mut RegisteredPattern, name: &[u8], said: CheckSummary)
    ensures { kept_view held.new ≡ noted_one name.now said (kept_view held.old) }
{
    if !is_named(held, name) {
        return;
    }
    held.said = Some(said);
}

fn note_in(held: &mut [RegisteredPattern], name: &[u8], said: CheckSummary)
    ensures { kept_views held.new ≡ noted name.now said (kept_views held.old) }
{
    for one in held {
        note_one(one, name, said);
    }
}

/// Records the summary of a check at the pattern of that name, if there is one.
pub fn record_result(registry: &mut PatternRegistry, name: &[u8], said: CheckSummary)
    ensures { registry_model registry.new ≡ noted name.now said (registry_model registry.old) }
{
    note_in(&mut registry.held, name, said)
}

/// Removes the pattern of that name, with the summary of its last check. The other patterns stay in their order.
pub fn forget(registry: &mut PatternRegistry, name: &[u8])
    ensures { registry_model registry.new ≡ forgotten name.now (registry_model registry.old) }
{
    registry.held.retain(
        |held: &RegisteredPattern| -> bool
            ensures { result ≡ not (is_named name.entry.now (kept_view held.now)) }
        { !is_named(held, name) },
    );
}
