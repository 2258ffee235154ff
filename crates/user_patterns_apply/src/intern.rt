//! Interns the types and attributes of the operations that a pattern creates.
ghost use Rattle.std.specs.Prelude.{◌∷◌, IfErr, IfOk, []};
ghost use Rattle.ir_event.specs.types.Things.{AttrIsOf, IsType, TypeIsOf};
ghost use Rattle.ir_event.specs.types.Bits.{type_of};
ghost use Rattle.ir_event.specs.types.Terms.{IntegerOf, attr_node_term, type_node_term, type_term};
ghost use Rattle.ir_event.specs.types.WordNames.{word_bytes};
ghost use Rattle.patterns_base.specs.Made.{flags, predicate_entry};
ghost use Rattle.patterns_lowering.specs.Interning.{Added, IsCapacityRefusal};
ghost use Rattle.patterns.specs.Interned.{IsAttrOf, IsPlain, IsTypeOf};
ghost use Rattle.user_patterns_apply.specs.Types.{TypeIsOf as IsBoundOf, type_in};
ghost use Rattle.user_patterns_apply.specs.Planned.{EntryDenotes, entries_of};

use crate::operations::is_flagged;
use crate::rewrite_plan::Property;
use crate::types::BoundType;
use ir_event::analysis::Analysis;
use ir_event::types::bits::BitsKind;
use ir_event::types::ids::{AttrId, NameId, TypeId};
use ir_event::types::node::{AttrNode, Sign, TypeNode};
use ir_event::types::refusal::Refusal;
use ir_event::types::word::Word;
use patterns_lowering::Bench;

/// Returns the number of an attribute that isn't a dictionary, and interns the attribute if it is new.
fn attr<L: Analysis>(bench: &mut Bench<L>, node: AttrNode) -> Result<AttrId, Refusal>
    requires of { AttrIsOf bench.old.transaction.ctx node }
    requires simple { IsPlain node }
    ensures ok { IfOk result (λ a. IsAttrOf bench.new.transaction.ctx a (attr_node_term bench.old.transaction.ctx node)) }
    ensures refused { IfErr result (λ e. IsCapacityRefusal bench.new.transaction.ctx e) }
    ensures added { Added L.meaning bench.old bench.new }
{
    bench.is_wellformed();
    let made = bench.attr(node);
    bench.is_wellformed();
    match made {
        Ok(attr) => Ok(attr),
        Err(Refusal::TooMany) => Err(Refusal::Full),
        Err(_) => Err(Refusal::Memory),
    }
}

/// Returns the number of a type, and interns the type if it is new.
fn ty<L: Analysis>(bench: &mut Bench<L>, node: TypeNode) -> Result<TypeId, Refusal>
    requires of { TypeIsOf bench.old.transaction.ctx node }
    ensures ok { IfOk result (λ t. IsTypeOf bench.new.transaction.ctx t (type_node_term bench.old.transaction.ctx node)) }
    ensures refused { IfErr result (λ e. IsCapacityRefusal bench.new.transaction.ctx e) }
    ensures added { Added L.meaning bench.old bench.new }
{
    bench.is_wellformed();
    let made = bench.ty(node);
    bench.is_wellformed();
    match made {
        Ok(ty) => Ok(ty),
        Err(Refusal::TooMany) => Err(Refusal::Full),
        Err(_) => Err(Refusal::Memory),
    }
}

/// Returns the number of the type whose values have that kind, and interns the type if it is new.
fn kind_type<L: Analysis>(bench: &mut Bench<L>, kind: BitsKind) -> Result<TypeId, Refusal>
    ensures ok { IfOk result (λ t. IsTypeOf bench.new.transaction.ctx t (type_of kind)) }
    ensures refused { IfErr result (λ e. IsCapacityRefusal bench.new.transaction.ctx e) }
    ensures added { Added L.meaning bench.old bench.new }
{
    match kind {
        BitsKind::Int(width) => ty(
            bench,
            TypeNode::Int {
                sign: Sign::Signless,
                width,
            },
        ),
        BitsKind::Index => ty(bench, TypeNode::Index),
    }
}

/// Returns the number of a bound type, and interns the type if it is new.
pub(crate) fn type_number<L: Analysis>(
    bench: &mut Bench<L>,
    bound: &BoundType,
) -> Result<TypeId, Refusal>
    requires of { IsBoundOf bench.old.transaction.ctx bound.now }
    ensures ok { IfOk result (λ t. IsTypeOf bench.new.transaction.ctx t (type_in bench.old.transaction.ctx bound.now)) }
    ensures refused { IfErr result (λ e. IsCapacityRefusal bench.new.transaction.ctx e) }
    ensures added { Added L.meaning bench.old bench.new }
{
    match bound {
        BoundType::Matched(ty) => Ok(*ty),
        BoundType::Concrete(kind) => kind_type(bench, *kind),
    }
}

/// Returns the overflow flags of a new operation, none of them set, or `None` if operations named `word` have no flags.
fn flags<L: Analysis>(bench: &mut Bench<L>, word: Word) -> Result<Option<(NameId, AttrId)>, Refusal>
    ensures ok { IfOk result (λ e. EntryDenotes bench.new.transaction.ctx e (flags (word_bytes word))) }
    ensures refused { IfErr result (λ e. IsCapacityRefusal bench.new.transaction.ctx e) }
    ensures added { Added L.meaning bench.old bench.new }
{
    if !is_flagged(word) {
        return Ok(None);
    }
    let node = AttrNode::Overflow {
        nsw: false,
        nuw: false,
    };
    let made = attr(bench, node);
    bench.is_wellformed();
    match made {
        Ok(flags) => Ok(Some((Word::OverflowFlags.id(), flags))),
        Err(refusal) => Err(refusal),
    }
}

/// Returns the integer attribute `value` of type `ty`, under `key`.
fn integer<L: Analysis>(
    bench: &mut Bench<L>,
    key: Word,
    ty: TypeId,
    value: u128,
) -> Result<Option<(NameId, AttrId)>, Refusal>
    requires { IsType bench.old.transaction.ctx ty }
    ensures ok { IfOk result (λ e. EntryDenotes bench.new.transaction.ctx e
        ((word_bytes key, IntegerOf (type_term bench.old.transaction.ctx ty) value) ∷ [])) }
    ensures refused { IfErr result (λ e. IsCapacityRefusal bench.new.transaction.ctx e) }
    ensures added { Added L.meaning bench.old bench.new }
{
    let made = attr(bench, AttrNode::Int { ty, value });
    bench.is_wellformed();
    match made {
        Ok(attr) => Ok(Some((key.id(), attr))),
        Err(refusal) => Err(refusal),
    }
}

/// Returns the predicate attribute of a comparison.
fn predicate<L: Analysis>(
    bench: &mut Bench<L>,
    number: u128,
) -> Result<Option<(NameId, AttrId)>, Refusal>
    ensures ok { IfOk result (λ e. EntryDenotes bench.new.transaction.ctx e (predicate_entry number)) }
    ensures refused { IfErr result (λ e. IsCapacityRefusal bench.new.transaction.ctx e) }
    ensures added { Added L.meaning bench.old bench.new }
{
    let ty = match kind_type(bench, BitsKind::Int(64)) {
        Ok(ty) => ty,
        Err(refusal) => return Err(refusal),
    };
    bench.is_wellformed();
    integer(bench, Word::Predicate, ty, number)
}

/// Returns the property of a new operation named `word`, or `None` if it has no property.
pub(crate) fn entry<L: Analysis>(
    bench: &mut Bench<L>,
    word: Word,
    ty: TypeId,
    property: Property,
) -> Result<Option<(NameId, AttrId)>, Refusal>
    requires { IsType bench.old.transaction.ctx ty }
    ensures ok { IfOk result (λ e. EntryDenotes bench.new.transaction.ctx e (entries_of bench.old.transaction.ctx word ty property)) }
    ensures refused { IfErr result (λ e. IsCapacityRefusal bench.new.transaction.ctx e) }
    ensures added { Added L.meaning bench.old bench.new }
{
    match property {
        Property::Flags => flags(bench, word),
        Property::Predicate(number) => predicate(bench, number),
        Property::Bits(bits) => integer(bench, Word::Value, ty, bits),
    }
}
