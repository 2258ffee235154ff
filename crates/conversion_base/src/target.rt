//! The target of a conversion.
use crate::names::Names;
use patterns_base::rule::Rule;
use std::marker::Model;

/// The target of a conversion (Dialect Conversion, "Conversion Target").
#[derive(Drop)]
pub struct Target {
    /// Whether every operation must be legal in the end.
    pub full: bool,
    /// The names of legal operations.
    pub legal: Names,
    /// The names of illegal operations.
    pub illegal: Names,
    /// The names of operations that are legal if they have no value of type index.
    pub dynamic: Names,
    /// The rules to try, in this order.
    pub rules: Vec<Rule>,
    /// The depth to which the operations that rules make are legalized.
    pub depth: u32,
}

impl Model for Target {
    ghost use Rattle.conversion_base.specs.Targets.{TargetOf};
    ghost use Rattle.std.specs.Prelude.{ℕ};

    ghost Value = { TargetOf ℕ };

    ghost view = { λ g. record {
      full = g.full;
      legal = g.legal;
      illegal = g.illegal;
      dynamic = g.dynamic;
      rules = g.rules.items;
      depth = g.depth;
    } };
}
