//! Checks that a tree's names, types and attributes are of a context, and that its dictionaries are sorted.
ghost use Rattle.std.specs.Prelude.{◌≡◌, ◌↔◌, map, IsTrue};
ghost use Rattle.std.specs.List.{list_all};
ghost use Rattle.ir_types.specs.Terms.{name_term};
ghost use Rattle.ir_tree.specs.Tree.{head, regions_of};
ghost use Rattle.ir_tree.specs.Limits.{all_arguments_pass};
ghost use Rattle.ir_tree.specs.Passing.{entry_passes, head_passes, op_passes};
ghost use Rattle.ir_tree.specs.Meaning.{IsSoundIn, is_name, is_type, is_attr, rises, dictionaries_rise, key_before_in};
ghost use Rattle.ir_tree.specs.View.{region_view};

use crate::every::{OpTest, every_op};
use crate::tree::{TreeOp, TreeRegion};
use ir_types::context::Context;
use ir_types::ids::{AttrId, NameId, TypeId};

/// Returns whether the names, types and attributes of a tree are ids of a context, and each dictionary is sorted by the
/// bytes of its keys, without duplicates (Language Reference, "Attributes": keys are unique).
pub fn sound(ctx: &Context, tree: &TreeOp) -> bool
    ensures { IsTrue result ↔ IsSoundIn ctx.now tree.now }
{
    every_op(tree, &InternedTest { ctx }) && every_op(tree, &SortedTest { ctx })
}

/// The test that one operation's ids are of the context.
#[derive(Drop)]
struct InternedTest<'a> {
    ctx: &'a Context,
}

impl<'a> OpTest for InternedTest<'a> {
    ghost passes = { λ t. op_passes (is_name t.ctx.now) (is_type t.ctx.now) (is_attr t.ctx.now) };

    /// Returns whether the ids of the operation are of the context.
    fn test(&self, op: &TreeOp) -> bool {
        head_is_known(self.ctx, op) && arguments_are_known(self.ctx, &op.regions)
    }
}

/// Returns whether the name of an operation, the types of its results and its entries are of a context.
fn head_is_known(ctx: &Context, op: &TreeOp) -> bool
    ensures { result ≡ head_passes (is_name ctx.now) (is_type ctx.now) (is_attr ctx.now) (head op.now) }
{
    ctx.has_name(op.name)
        && types_are_known(ctx, &op.results)
        && entries_are_known(ctx, &op.props)
        && entries_are_known(ctx, &op.attrs)
}

/// Returns whether the types of the arguments of the blocks of some regions are of a context.
fn arguments_are_known(ctx: &Context, regions: &Vec<TreeRegion>) -> bool
    ensures { result ≡ all_arguments_pass (list_all (is_type ctx.now)) (regions_of (map region_view regions.now.items)) }
{
    for region in regions {
        if let TreeRegion::Block { args, .. } = region {
            if !types_are_known(ctx, args) {
                return false;
            }
        }
    }
    true
}

/// Returns whether all of some types are of a context.
fn types_are_known(ctx: &Context, types: &Vec<TypeId>) -> bool
    ensures { result ≡ list_all (is_type ctx.now) types.now.items }
{
    types.iter().all(|ty| ctx.has_type(*ty))
}

/// Returns whether the key and the attribute of each entry are of a context.
fn entries_are_known(ctx: &Context, entries: &Vec<(NameId, AttrId)>) -> bool
    ensures { result ≡ list_all (entry_passes (is_name ctx.now) (is_attr ctx.now)) entries.now.items }
{
    entries
        .iter()
        .all(|entry| ctx.has_name(entry.0) && ctx.has_attr(entry.1))
}

/// The test that one operation's dictionaries are sorted.
#[derive(Drop)]
struct SortedTest<'a> {
    ctx: &'a Context,
}

impl<'a> OpTest for SortedTest<'a> {
    ghost passes = { λ t. dictionaries_rise (key_before_in t.ctx.now) };

    /// Returns whether both dictionaries of the operation are sorted by their keys, without duplicates.
    fn test(&self, op: &TreeOp) -> bool {
        is_sorted(self.ctx, &op.props) && is_sorted(self.ctx, &op.attrs)
    }
}

/// Returns whether entries are strictly increasing by the bytes of their keys.
fn is_sorted(ctx: &Context, entries: &Vec<(NameId, AttrId)>) -> bool
    ensures { result ≡ rises (key_before_in ctx.now) entries.now.items }
{
    let Some((first, rest)) = entries.as_slice().split_first() else {
        return true;
    };
    let mut last = first.0;
    for entry in rest {
        if !comes_before(ctx, last, entry.0) {
            return false;
        }
        last = entry.0;
    }
    true
}

/// Returns whether a key is before another by its bytes.
pub fn comes_before(ctx: &Context, one: NameId, other: NameId) -> bool
    ensures { result ≡ key_before_in ctx.now one other }
{
    bytes_or_none(ctx, one)
        .cmp(bytes_or_none(ctx, other))
        .is_lt()
}

/// Returns the bytes of a name, or no bytes if the name isn't of the context.
fn bytes_or_none(ctx: &Context, name: NameId) -> &[u8]
    ensures { result.now ≡ name_term ctx.now name }
{
    if ctx.has_name(name) {
        ctx.name_bytes(name)
    } else {
        &[]
    }
}
