//! Interns what lowerings need: i64, index, and an i64 integer for each index integer.
ghost use Rattle.std.specs.Prelude.{◌≡◌, IfOk, IfErr, OnOk, None, ℕ, List, [], ◌∷◌, ◌++◌};
ghost use Rattle.ir_event.specs.types.Things.{IsType, IsAttr, TypeIsOf};
ghost use Rattle.ir_event.specs.types.Terms.{attr_term, type_term, type_node_term};
ghost use Rattle.ir_event.specs.types.Reasons.{type_fault};
ghost use Rattle.ir_event.specs.trees.Meaning.{IsSoundIn};
ghost use Rattle.ir_event.specs.trees.Tree.{head};
ghost use Rattle.patterns_soundness.specs.base.Made.{i64};
ghost use Rattle.patterns_soundness.specs.base.Lowering.{lowered_attr};
ghost use Rattle.patterns_lowering.specs.Interning.{Added, IsCapacityRefusal};
ghost use Rattle.patterns_lowering.specs.Refused.{as_full};
ghost use Rattle.patterns_lowering.specs.Lowered.{AreKnown, AreLowered, AreTypes, IsLowering, index_bits};

use crate::Bench;
use crate::index::is_index;
use crate::numbers::Numbers;
use crate::rewriter_laws::led_benches_are_kept;
use ir_event::analysis::Analysis;
use ir_event::trees::tree::TreeOp;
use ir_event::types::context::Context;
use ir_event::types::ids::{AttrId, NameId, TypeId};
use ir_event::types::node::{AttrNode, Sign, TypeNode};
use ir_event::types::refusal::Refusal;
use ir_event::types::things::attr_of;
use std::alloc::{AllocError, Global};

/// Converts a refusal of the context to `Full` or `Memory`.
fn as_full(refusal: Refusal) -> Refusal
    ensures { result ≡ as_full refusal }
{
    match refusal {
        Refusal::Memory => Refusal::Memory,
        _ => Refusal::Full,
    }
}

/// Interns a valid type.
fn interned_type<L: Analysis>(bench: &mut Bench<L>, node: TypeNode) -> Result<TypeId, Refusal>
    requires of { TypeIsOf bench.old.transaction.ctx node }
    requires fine { type_fault (type_node_term bench.old.transaction.ctx node) ≡ None }
    ensures known { IfOk result (λ id. IsType bench.new.transaction.ctx id) }
    ensures is { IfOk result (λ id. type_term bench.new.transaction.ctx id ≡ type_node_term bench.old.transaction.ctx node) }
    ensures refused { IfErr result (λ e. IsCapacityRefusal bench.new.transaction.ctx e) }
    ensures interned { Added L.meaning bench.old bench.new }
{
    bench.is_wellformed();
    let made = bench.ty(node);
    bench.is_wellformed();
    match made {
        Ok(id) => Ok(id),
        Err(refusal) => Err(as_full(refusal)),
    }
}

/// Returns the bits of an integer attribute of type index, or `None` for another attribute.
fn index_bits(ctx: &Context, attr: AttrId) -> Option<u128>
    requires { IsAttr ctx.now attr }
    ensures { result ≡ index_bits (attr_term ctx.now attr) }
{
    match attr_of(ctx, attr) {
        AttrNode::Int { ty, value } => {
            if is_index(ctx, *ty) {
                return Some(*value);
            }
            None
        }
        _ => None,
    }
}

/// Returns the i64 integer for an integer of type index, and any other attribute unchanged.
fn lowered_attr<L: Analysis>(
    bench: &mut Bench<L>,
    wide: TypeId,
    attr: AttrId,
) -> Result<AttrId, Refusal>
    requires wide_known { IsType bench.old.transaction.ctx wide }
    requires wide_is { type_term bench.old.transaction.ctx wide ≡ i64 }
    requires known { IsAttr bench.old.transaction.ctx attr }
    ensures known { IfOk result (λ id. IsAttr bench.new.transaction.ctx id) }
    ensures is { IfOk result (λ id. attr_term bench.new.transaction.ctx id
        ≡ lowered_attr (attr_term bench.old.transaction.ctx attr)) }
    ensures refused { IfErr result (λ e. IsCapacityRefusal bench.new.transaction.ctx e) }
    ensures interned { Added L.meaning bench.old bench.new }
{
    led_benches_are_kept::<L>();
    bench.is_wellformed();
    let Some(value) = index_bits(&bench.world().ctx, attr) else {
        return Ok(attr);
    };
    let made = bench.attr(AttrNode::Int { ty: wide, value });
    bench.is_wellformed();
    match made {
        Ok(id) => Ok(id),
        Err(refusal) => Err(as_full(refusal)),
    }
}

/// Appends an entry to a dictionary.
fn push_entry(
    entries: &mut Vec<(NameId, AttrId)>,
    key: NameId,
    attr: AttrId,
) -> Result<(), AllocError>
    ensures { OnOk result (entries.new.items ≡ entries.old.items ++ (key, attr) ∷ []) }
{
    entries.push((key, attr))?;
    Ok(())
}

/// Appends one entry, lowered to i64.
fn lowered_entry<L: Analysis>(
    bench: &mut Bench<L>,
    lowered: &mut Vec<(NameId, AttrId)>,
    wide: TypeId,
    entry: (NameId, AttrId),
) -> Result<(), Refusal>
    requires wide_known { IsType bench.old.transaction.ctx wide }
    requires wide_is { type_term bench.old.transaction.ctx wide ≡ i64 }
    requires known { IsAttr bench.old.transaction.ctx entry.1 }
    ensures lowered { OnOk result ((all rest : List (ℕ × ℕ))
        → IsLowering bench.old.transaction.ctx all (entry ∷ rest) lowered.old.items
        → IsLowering bench.new.transaction.ctx all rest lowered.new.items) }
    ensures refused { IfErr result (λ e. IsCapacityRefusal bench.new.transaction.ctx e) }
    ensures interned { Added L.meaning bench.old bench.new }
{
    bench.is_wellformed();
    let (key, attr) = entry;
    let attr = match lowered_attr(bench, wide, attr) {
        Ok(attr) => attr,
        Err(refusal) => return Err(refusal),
    };
    match push_entry(lowered, key, attr) {
        Ok(()) => Ok(()),
        Err(_) => Err(Refusal::Memory),
    }
}

/// Returns the entries of a dictionary, with an i64 integer for each index integer.
fn lowered_entries<L: Analysis>(
    alloc: Global,
    bench: &mut Bench<L>,
    wide: TypeId,
    entries: &[(NameId, AttrId)],
) -> Result<Vec<(NameId, AttrId)>, Refusal>
    requires wide_known { IsType bench.old.transaction.ctx wide }
    requires wide_is { type_term bench.old.transaction.ctx wide ≡ i64 }
    requires known { AreKnown bench.old.transaction.ctx entries.now }
    ensures lowered { IfOk result (λ es. AreLowered bench.new.transaction.ctx entries.now es.items) }
    ensures refused { IfErr result (λ e. IsCapacityRefusal bench.new.transaction.ctx e) }
    ensures interned { Added L.meaning bench.old bench.new }
{
    led_benches_are_kept::<L>();
    bench.is_wellformed();
    let mut lowered = Vec::new(alloc);
    let mut rest = entries;
    'entries: while let [entry, tail @ ..] = rest {
        if let Err(refusal) = lowered_entry(bench, &mut lowered, wide, *entry) {
            bench.is_wellformed();
            return Err(refusal);
        }
        bench.is_wellformed();
        rest = tail;
    }
    Ok(lowered)
}

/// Interns i64 and index.
fn interned_types<L: Analysis>(bench: &mut Bench<L>) -> Result<(TypeId, TypeId), Refusal>
    ensures types { IfOk result (λ p. AreTypes bench.new.transaction.ctx p.0 p.1) }
    ensures refused { IfErr result (λ e. IsCapacityRefusal bench.new.transaction.ctx e) }
    ensures interned { Added L.meaning bench.old bench.new }
{
    led_benches_are_kept::<L>();
    let node = TypeNode::Int {
        sign: Sign::Signless,
        width: 64,
    };
    let wide = match interned_type(bench, node) {
        Ok(wide) => wide,
        Err(refusal) => return Err(refusal),
    };
    bench.is_wellformed();
    match interned_type(bench, TypeNode::Index) {
        Ok(index) => {
            bench.is_wellformed();
            Ok((wide, index))
        }
        Err(refusal) => {
            bench.is_wellformed();
            Err(refusal)
        }
    }
}

/// Interns what lowering an operation needs.
///
/// Errors: `Full` if the context is full; `Memory`.
pub(crate) fn interned<L: Analysis>(
    alloc: Global,
    bench: &mut Bench<L>,
    op: &TreeOp,
) -> Result<Numbers, Refusal>
    requires { IsSoundIn bench.old.transaction.ctx op.now }
    ensures types { IfOk result (λ n. AreTypes bench.new.transaction.ctx n.wide n.index) }
    ensures properties { IfOk result (λ n. AreLowered bench.new.transaction.ctx (head op.now).properties n.properties.items) }
    ensures refused { IfErr result (λ e. IsCapacityRefusal bench.new.transaction.ctx e) }
    ensures interned { Added L.meaning bench.old bench.new }
{
    led_benches_are_kept::<L>();
    bench.is_wellformed();
    let (wide, index) = match interned_types(bench) {
        Ok(types) => types,
        Err(refusal) => return Err(refusal),
    };
    bench.is_wellformed();
    match lowered_entries(alloc, bench, wide, &op.props) {
        Ok(properties) => {
            bench.is_wellformed();
            Ok(Numbers {
                wide,
                index,
                properties,
            })
        }
        Err(refusal) => {
            bench.is_wellformed();
            Err(refusal)
        }
    }
}
