//! Laws of registries.
ghost use Rattle.std.specs.Prelude.{[]};
ghost use Rattle.user_patterns_registry.specs.Registry.{AddsOne, ForgetsNothing, ForgetsOne, ForgettingKeepsARegistry, IsRegistry, NotingKeepsARegistry, ReplacingKeepsARegistry, StaysARegistry};

/// The names in a registry are distinct, it has at most 256 patterns, and each can be applied. The empty registry
/// satisfies this, and a defined pattern or a recorded check keeps it. A new pattern is the last one, and lookups of
/// the others give the same result as before.
pub fn what_is_defined_is_ready()
    ensures empty { IsRegistry [] }
    ensures registry { StaysARegistry }
    ensures noted { NotingKeepsARegistry }
    ensures one { AddsOne }
{}

/// A registry from which a pattern is removed has distinct names and can be applied, as before. No pattern has the
/// removed name, and lookups of the other names give the same result as before. Removing an unknown name changes
/// nothing.
pub fn forgetting_keeps_the_others()
    ensures registry { ForgettingKeepsARegistry }
    ensures one { ForgetsOne }
    ensures nothing { ForgetsNothing }
{}

/// A registry in which the pattern of a text takes the place of the first one of its name has distinct names and can be
/// applied, as before.
pub fn replacing_keeps_the_others()
    ensures { ReplacingKeepsARegistry }
{}
