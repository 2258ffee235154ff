//! The rules that an operation breaks.
ghost use Rattle.std.specs.Prelude.{◌≡◌, ◌≤◌, ◌<◌, ◌^◌, [], ◌∷◌, ◌++◌, IfOk, OnOk, length, true, false};
ghost use Rattle.ir_types.specs.Terms.{name_term};
ghost use Rattle.ir_verify_base.specs.Gathered.{AroundIsOf};
ghost use Rattle.ir_verify.specs.Breaks.{counted_rules, numbers_from};
ghost use Rattle.ir_verify_base.specs.Fits.{Surroundings};
ghost use Rattle.op_registry.specs.Registry.{row_from};
ghost use Rattle.ir_verify_base.specs.Numbers.{around_in, node_in};
ghost use Rattle.ir_verify.specs.Sets.{has_any, packed, rules_in, set_of, with_bit};
ghost use Rattle.ir_verify_base.specs.Shapes as shapes;

use crate::block_rules::{breaks_6, breaks_8, breaks_9, breaks_21, breaks_22};
use crate::place_rules::{
    breaks_10, breaks_11, breaks_15, breaks_16, breaks_17, breaks_23, definition, ended,
};
use ir_types::context::Context;
use ir_types::ids::NameId;
use ir_verify_base::fact::LocalFact;
use ir_verify_base::memref_rules::{breaks_20, breaks_24};
use ir_verify_base::op_context::OpContext;
use ir_verify_base::shapes::{breaks_1, breaks_3, breaks_5, breaks_12, breaks_13, is_well_shaped};
use ir_verify_base::type_rules::{
    breaks_2, breaks_4, breaks_7, breaks_14, breaks_18, breaks_19, known_of,
};
use op_registry::definition::OpDef;
use op_registry::laws::listed_has_row;
use op_registry::registry::Registry;
use std::alloc::{AllocError, Global};

/// A set of rules.
#[derive(Clone, Copy)]
pub struct RuleSet {
    /// Bit r - 1 says whether the set has rule r.
    bits: u32,
}

impl RuleSet {
    /// Returns the set of the rules with `true`. The list is ordered by rule number.
    fn of(held: &[bool]) -> RuleSet
        requires { length held.now ≤ 24 }
        ensures { result.bits ≡ packed held.now }
    {
        let mut bits: u32 = 0;
        let mut place = held.len();
        while place > 0 {
            place -= 1;
            bits = with_bit(held[place], bits);
        }
        RuleSet { bits }
    }

    /// Returns whether the set has a rule.
    pub(crate) fn has_any(&self) -> bool
        ensures { result ≡ has_any self.now }
    {
        self.bits != 0
    }

    /// Returns the numbers of the rules in the set, in ascending order.
    pub fn numbers(&self, alloc: Global) -> Result<Vec<u8>, AllocError>
        ensures { IfOk result (λ v. v.items ≡ rules_in self.now) }
    {
        let mut numbers = Vec::new(alloc);
        let mut rest = self.bits;
        for number in 1..25 {
            push_if(rest % 2 == 1, number, &mut numbers)?;
            rest /= 2;
        }
        Ok(numbers)
    }
}

impl LocalFact for RuleSet {
    ghost use Rattle.ir_verify.specs.Sets.{has_any, set_of};

    ghost fact = { set_of };

    ghost kept = { has_any };

    fn concerns(ctx: &Context, name: NameId) -> bool {
        may_break(ctx, name)
    }

    #[tactic(auto, using(crate::proofs::Gathering::gathered_reported))]
    fn compute(ctx: &Context, registry: &Registry, around: &OpContext<'_>) -> RuleSet {
        broken_rules(ctx, registry, around)
    }

    fn is_kept(&self) -> bool {
        self.has_any()
    }
}

/// Returns whether an operation with that name may break a rule. Only listed operations do.
pub(crate) fn may_break(ctx: &Context, name: NameId) -> bool
    ensures { result ≡ false → (s : Surroundings) → s.node.head.name ≡ name_term ctx.now name
        → has_any (set_of s) ≡ false }
{
    listed_has_row();
    ctx.listed(name)
}

/// Appends the number if `held`.
fn push_if(held: bool, number: u8, numbers: &mut Vec<u8>) -> Result<(), AllocError>
    ensures { OnOk result (numbers.new.items ≡ numbers.old.items ++ numbers_from number (held ∷ [])) }
{
    if held {
        numbers.push(number)?;
    }
    Ok(())
}

/// Returns the number shifted left by one bit, with `bit` as its lowest bit.
fn with_bit(bit: bool, bits: u32) -> u32
    requires { bits < 2 ^ 31 }
    ensures { result ≡ with_bit bit bits }
{
    if bit { 2 * bits + 1 } else { 2 * bits }
}

/// Returns the rules that an operation breaks, given its context.
pub fn broken_rules(ctx: &Context, registry: &Registry, around: &OpContext<'_>) -> RuleSet
    requires { AroundIsOf ctx.now around.now }
    ensures { result ≡ set_of (around_in ctx.now around.now) }
{
    match definition(ctx, registry, &around.node) {
        None => RuleSet { bits: 0 },
        Some(def) => reported_by(ctx, registry, def, around),
    }
}

/// Returns the rules that a listed operation breaks.
fn reported_by(ctx: &Context, registry: &Registry, def: &OpDef, around: &OpContext<'_>) -> RuleSet
    requires { AroundIsOf ctx.now around.now }
    ensures { result.bits ≡ packed (counted_rules (row_from def.now) (around_in ctx.now around.now)) }
{
    if is_well_shaped(ctx, def, &around.node) {
        broken_if_shaped(ctx, registry, def, around)
    } else {
        broken_if_unshaped(ctx, registry, def, around)
    }
}

/// Returns the broken rules of an operation that isn't well-shaped. Rules that need a well-shaped operation don't
/// count.
fn broken_if_unshaped(
    ctx: &Context,
    registry: &Registry,
    def: &OpDef,
    around: &OpContext<'_>,
) -> RuleSet
    requires around { AroundIsOf ctx.now around.now }
    requires shaped { shapes.is_well_shaped (row_from def.now) (node_in ctx.now around.now.node) ≡ false }
    ensures { result.bits ≡ packed (counted_rules (row_from def.now) (around_in ctx.now around.now)) }
{
    let node = &around.node;
    let reports_nothing = false;
    RuleSet::of(&[
        breaks_1(ctx, def, node),
        reports_nothing,
        breaks_3(ctx, def, node),
        reports_nothing,
        breaks_5(ctx, def, node),
        reports_nothing,
        reports_nothing,
        reports_nothing,
        reports_nothing,
        breaks_10(ctx, registry, around),
        breaks_11(ctx, registry, def, around),
        breaks_12(ctx, def, node),
        breaks_13(ctx, def, node),
        reports_nothing,
        reports_nothing,
        reports_nothing,
        reports_nothing,
        reports_nothing,
        reports_nothing,
        reports_nothing,
        reports_nothing,
        reports_nothing,
        breaks_23(ctx, around),
        reports_nothing,
    ])
}

/// Returns the broken rules of a well-shaped operation.
fn broken_if_shaped(
    ctx: &Context,
    registry: &Registry,
    def: &OpDef,
    around: &OpContext<'_>,
) -> RuleSet
    requires around { AroundIsOf ctx.now around.now }
    requires shaped { shapes.is_well_shaped (row_from def.now) (node_in ctx.now around.now.node) ≡ true }
    ensures { result.bits ≡ packed (counted_rules (row_from def.now) (around_in ctx.now around.now)) }
{
    let known = known_of(ctx, def, around);
    let ended = ended(ctx, registry, around);
    RuleSet::of(&[
        false,
        breaks_2(ctx, def, around, &known),
        false,
        breaks_4(ctx, def, around, &known),
        false,
        breaks_6(ctx, def, around),
        breaks_7(ctx, def, around, &known),
        breaks_8(ctx, registry, around),
        breaks_9(ctx, around),
        breaks_10(ctx, registry, around),
        breaks_11(ctx, registry, def, around),
        false,
        false,
        breaks_14(ctx, around),
        breaks_15(ctx, around, ended),
        breaks_16(ctx, around, ended),
        breaks_17(ctx, around, ended),
        breaks_18(ctx, around),
        breaks_19(ctx, around),
        breaks_20(ctx, around),
        breaks_21(ctx, around),
        breaks_22(ctx, around),
        breaks_23(ctx, around),
        breaks_24(ctx, around),
    ])
}
