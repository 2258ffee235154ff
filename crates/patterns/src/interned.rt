//! Interns the attributes and types of new operations.
ghost use Rattle.std.specs.Prelude.{false, IfOk, IfErr};
ghost use Rattle.ir_event.specs.types.Things.{IsName, IsType, TypeIsOf, AttrIsOf};
ghost use Rattle.ir_event.specs.types.Terms.{Integer, IntegerOf, Overflow, attr_node_term, name_term, type_node_term};
ghost use Rattle.ir_event.specs.types.Terms.{type_term};
ghost use Rattle.ir_event.specs.types.declared.node.Sign.TheVariants.{Signless};
ghost use Rattle.patterns_soundness.specs.base.Made.{i64};
ghost use Rattle.patterns_lowering.specs.Interning.{Added, IsCapacityRefusal};
ghost use Rattle.patterns.specs.Interned.{FlagsOf, IsAttrOf, IsPlain, IsTypeOf};

use crate::operations::is_flagged;
use ir_event::analysis::Analysis;
use ir_event::types::ids::{AttrId, NameId, TypeId};
use ir_event::types::node::{AttrNode, Sign, TypeNode};
use ir_event::types::refusal::Refusal;
use patterns_lowering::Bench;

/// Interns an attribute that isn't a dictionary.
fn attr<L: Analysis>(bench: &mut Bench<L>, node: AttrNode) -> Result<AttrId, Refusal>
    requires of { AttrIsOf bench.old.transaction.ctx node }
    requires simple { IsPlain node }
    ensures ok { IfOk result (λ a. IsAttrOf bench.new.transaction.ctx a (attr_node_term bench.old.transaction.ctx node)) }
    ensures refused { IfErr result (λ e. IsCapacityRefusal bench.new.transaction.ctx e) }
    ensures added { Added L.meaning bench.old bench.new }
{
    bench.is_wellformed();
    let made = bench.attr(node);
    bench.is_wellformed();
    match made {
        Ok(attr) => Ok(attr),
        Err(Refusal::TooMany) => Err(Refusal::Full),
        Err(_) => Err(Refusal::Memory),
    }
}

/// Interns a signless integer type.
pub(crate) fn integer_type<L: Analysis>(bench: &mut Bench<L>, width: u32) -> Result<TypeId, Refusal>
    ensures ok { IfOk result (λ t. IsTypeOf bench.new.transaction.ctx t (Integer Signless width)) }
    ensures refused { IfErr result (λ e. IsCapacityRefusal bench.new.transaction.ctx e) }
    ensures added { Added L.meaning bench.old bench.new }
{
    bench.is_wellformed();
    let made = bench.ty(TypeNode::Int {
        sign: Sign::Signless,
        width,
    });
    bench.is_wellformed();
    match made {
        Ok(ty) => Ok(ty),
        Err(Refusal::TooMany) => Err(Refusal::Full),
        Err(_) => Err(Refusal::Memory),
    }
}

/// Interns the value attribute of a constant, from its bits.
pub(crate) fn value_attr<L: Analysis>(
    bench: &mut Bench<L>,
    ty: TypeId,
    value: u128,
) -> Result<AttrId, Refusal>
    requires { IsType bench.old.transaction.ctx ty }
    ensures ok { IfOk result (λ a. IsAttrOf bench.new.transaction.ctx a (IntegerOf (type_term bench.old.transaction.ctx ty) value)) }
    ensures refused { IfErr result (λ e. IsCapacityRefusal bench.new.transaction.ctx e) }
    ensures added { Added L.meaning bench.old bench.new }
{
    attr(bench, AttrNode::Int { ty, value })
}

/// Interns the predicate attribute of a comparison.
pub(crate) fn predicate_attr<L: Analysis>(
    bench: &mut Bench<L>,
    predicate: u128,
) -> Result<AttrId, Refusal>
    ensures ok { IfOk result (λ a. IsAttrOf bench.new.transaction.ctx a (IntegerOf i64 predicate)) }
    ensures refused { IfErr result (λ e. IsCapacityRefusal bench.new.transaction.ctx e) }
    ensures added { Added L.meaning bench.old bench.new }
{
    let ty = match integer_type(bench, 64) {
        Ok(ty) => ty,
        Err(refusal) => return Err(refusal),
    };
    bench.is_wellformed();
    value_attr(bench, ty, predicate)
}

/// Interns the attribute of overflow flags without a set flag.
pub(crate) fn flags_attr<L: Analysis>(bench: &mut Bench<L>) -> Result<AttrId, Refusal>
    ensures ok { IfOk result (λ a. IsAttrOf bench.new.transaction.ctx a (Overflow false false)) }
    ensures refused { IfErr result (λ e. IsCapacityRefusal bench.new.transaction.ctx e) }
    ensures added { Added L.meaning bench.old bench.new }
{
    attr(
        bench,
        AttrNode::Overflow {
            nsw: false,
            nuw: false,
        },
    )
}

/// Interns the attribute of overflow flags without a set flag, if operations with this name have overflow flags.
/// Otherwise returns `None`.
pub(crate) fn flags_for<L: Analysis>(
    bench: &mut Bench<L>,
    name: NameId,
) -> Result<Option<AttrId>, Refusal>
    requires { IsName bench.old.transaction.ctx name }
    ensures ok { IfOk result (λ flags. FlagsOf bench.new.transaction.ctx (name_term bench.old.transaction.ctx name) flags) }
    ensures refused { IfErr result (λ e. IsCapacityRefusal bench.new.transaction.ctx e) }
    ensures added { Added L.meaning bench.old bench.new }
{
    if !is_flagged(&bench.world().ctx, name) {
        return Ok(None);
    }
    match flags_attr(bench) {
        Ok(flags) => Ok(Some(flags)),
        Err(refusal) => Err(refusal),
    }
}
