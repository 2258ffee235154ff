//! The reported rules of an operation: the rules that it breaks, except rules on types if it is beyond the table.
ghost use Rattle.std.specs.Prelude.{◌≡◌, IfOk, OnOk, Some, ◌++◌, List, ℕ, true, false};
ghost use Rattle.std.specs.List.{All, filter};
ghost use Rattle.ir_types.specs.Things.{IsType};
ghost use Rattle.ir_types.specs.Terms.{type_from, type_term, TypeTerm, name_term};
ghost use Rattle.op_registry.specs.Registry.{row_from};
ghost use Rattle.ir_verify_base.specs.Gathered.{AroundIsOf};
ghost use Rattle.ir_verify_base.specs.Fits.{Surroundings};
ghost use Rattle.ir_verify_base.specs.Numbers.{around_in, typed};
ghost use Rattle.ir_verify.specs.Beyond as beyond;
ghost use Rattle.ir_verify.specs.Sets.{breaks_any, is_reported, reported_rules, finding_of};

use crate::place_rules::definition;
use crate::rules::{RuleSet, broken_rules, may_break};
use ir_types::context::Context;
use ir_types::ids::{NameId, TypeId};
use ir_types::node::TypeNode;
use ir_types::word::Word;
use ir_verify_base::fact::LocalFact;
use ir_verify_base::node::is_named;
use ir_verify_base::op_context::OpContext;
use op_registry::definition::{OpDef, TypeRule};
use op_registry::own::Own;
use op_registry::registry::Registry;
use op_registry::things::type_of;
use std::alloc::{AllocError, Global};

/// The finding about an operation.
#[derive(Clone, Copy)]
pub struct Finding {
    /// The rules that the operation breaks.
    broken: RuleSet,
    /// Whether the operation breaks a rule and is beyond the table: it has an opaque type where its row allows only
    /// integers or memrefs.
    beyond: bool,
    /// Whether the operation is an `arith.constant`.
    constant: bool,
}

impl Finding {
    /// Returns whether a broken rule is reported.
    fn is_reported(&self, rule: u8) -> bool
        ensures { result ≡ is_reported self.now rule }
    {
        !(self.beyond && is_on_types(self.constant, rule))
    }

    /// Returns the numbers of the reported rules, in ascending order.
    #[tactic(auto, unfolding(crate::specs::Sets::reported_rules))]
    pub(crate) fn numbers(&self, alloc: Global) -> Result<Vec<u8>, AllocError>
        ensures { IfOk result (λ v. v.items ≡ reported_rules self.now) }
    {
        let broken = self.broken.numbers(alloc)?;
        let mut numbers = Vec::new(alloc);
        self.push_reported(&broken, &mut numbers)?;
        Ok(numbers)
    }

    /// Appends those of the broken rules that are reported.
    fn push_reported(&self, broken: &[u8], numbers: &mut Vec<u8>) -> Result<(), AllocError>
        ensures { OnOk result (numbers.new.items ≡ numbers.old.items ++ filter (is_reported self.now) broken.now) }
    {
        for rule in broken {
            if self.is_reported(*rule) {
                numbers.push(*rule)?;
            }
        }
        Ok(())
    }
}

impl LocalFact for Finding {
    ghost use Rattle.ir_verify.specs.Sets.{breaks_any, finding_of};

    ghost fact = { finding_of };

    ghost kept = { breaks_any };

    fn concerns(ctx: &Context, name: NameId) -> bool {
        may_break(ctx, name)
    }

    #[tactic(auto, using(crate::proofs::Gathering::gathered_beyond))]
    fn compute(ctx: &Context, registry: &Registry, around: &OpContext<'_>) -> Finding {
        finding_around(ctx, registry, around)
    }

    fn is_kept(&self) -> bool {
        self.broken.has_any()
    }
}

/// Returns the finding about an operation, given its context.
fn finding_around(ctx: &Context, registry: &Registry, around: &OpContext<'_>) -> Finding
    requires { AroundIsOf ctx.now around.now }
    ensures { result ≡ finding_of (around_in ctx.now around.now) }
{
    let broken = broken_rules(ctx, registry, around);
    let beyond = broken.has_any() && is_beyond(ctx, registry, around);
    Finding {
        broken,
        beyond,
        constant: is_named(ctx, &around.node, Word::ArithConstant),
    }
}

/// Returns whether the rule is on the table's types. For a constant, the rule on the kind of its value is one too.
fn is_on_types(constant: bool, rule: u8) -> bool
    ensures { result ≡ beyond.is_on_types constant rule }
{
    match rule {
        2 | 4 | 14 | 18 | 19 | 20 | 24 => true,
        13 => constant,
        _ => false,
    }
}

/// Returns whether a listed operation is beyond the table.
fn is_beyond(ctx: &Context, registry: &Registry, around: &OpContext<'_>) -> bool
    requires { AroundIsOf ctx.now around.now }
    ensures { result ≡ beyond.is_beyond (around_in ctx.now around.now) }
{
    match definition(ctx, registry, &around.node) {
        None => false,
        Some(def) => is_beyond_row(ctx, def, around),
    }
}

/// Returns whether the operation is beyond its row: it has an opaque type where the row allows only some types.
#[tactic(auto, unfolding(op_registry::specs::Registry::row_from))]
fn is_beyond_row(ctx: &Context, def: &OpDef, around: &OpContext<'_>) -> bool
    requires { AroundIsOf ctx.now around.now }
    ensures { result ≡ beyond.is_beyond_row (row_from def.now) (around_in ctx.now around.now) }
{
    let computes = only_computes(def);
    any_opaque(ctx, computes, def.operands.first, &around.types)
        || any_opaque(ctx, computes, def.results.first, around.node.results())
}

/// Returns whether the operation only computes: it has no effect and no region, and isn't a terminator.
#[tactic(auto, unfolding(op_registry::specs::Registry::row_from))]
fn only_computes(def: &OpDef) -> bool
    ensures { result ≡ beyond.only_computes (row_from def.now) }
{
    is_pure(def.effects) && def.regions.len() == 0 && !def.traits.terminator
}

/// Returns whether there are no effects.
fn is_pure(effects: Own) -> bool
    ensures { result ≡ beyond.is_pure effects }
{
    match effects {
        Own::Pure => true,
        Own::Only(_) | Own::Recursive | Own::Unknown => false,
    }
}

/// Returns whether a type is opaque where the row allows only integers or memrefs.
fn any_opaque(ctx: &Context, computes: bool, rules: &[TypeRule], types: &[TypeId]) -> bool
    requires { All (λ t. IsType ctx.now t) types.now }
    ensures { result ≡ beyond.any_opaque computes rules.now (typed ctx.now types.now) }
{
    let mut named = rules;
    let mut rest = types;
    while let [rule, more @ ..] = named {
        let [ty, others @ ..] = rest else {
            return false;
        };
        if speaks_of_some(computes, *rule) && is_opaque(ctx, *ty) {
            return true;
        }
        named = more;
        rest = others;
    }
    false
}

/// Returns whether a type rule allows only memrefs, or only integers and `index`. The latter counts only if the
/// operation only computes.
fn speaks_of_some(computes: bool, rule: TypeRule) -> bool
    ensures { result ≡ beyond.speaks_of_some computes rule }
{
    match rule {
        TypeRule::Number | TypeRule::OtherNumber | TypeRule::Integer | TypeRule::Boolean =>
            computes,
        TypeRule::Memref => true,
        TypeRule::Any
        | TypeRule::Index
        | TypeRule::Element
        | TypeRule::Same
        | TypeRule::Initial
        | TypeRule::Result
        | TypeRule::Input => false,
    }
}

/// Returns whether a type is opaque.
fn is_opaque(ctx: &Context, ty: TypeId) -> bool
    requires { IsType ctx.now ty }
    ensures { result ≡ beyond.is_opaque (type_term ctx.now ty) }
{
    node_is_opaque(type_of(ctx, ty))
}

/// Returns whether a type node is opaque.
fn node_is_opaque(node: &TypeNode) -> bool
    ensures { (known : List TypeTerm) → result ≡ beyond.is_opaque (type_from known node.now) }
{
    match node {
        TypeNode::Opaque(_) => true,
        TypeNode::Int { .. } | TypeNode::Index | TypeNode::Func { .. } | TypeNode::Memref { .. } =>
            false,
    }
}
