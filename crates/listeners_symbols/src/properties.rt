//! The parts of an operation's properties that are about symbols.
ghost use Rattle.std.specs.Prelude.{◌≡◌, IfSome, IfOk, List, [], ℕ, map, slice_index_or};
ghost use Rattle.std.specs.List.{All};
ghost use Rattle.std.specs.Option.{option_map, option_and_then};
ghost use Rattle.ir_event.specs.types.Things.{ContextModel, IsName, IsAttr, IsType, AttrIsOf};
ghost use Rattle.ir_event.specs.types.Terms.{TypeTerm, AttrTerm, attr_from, attr_term, name_term, type_term};
ghost use Rattle.ir_event.specs.types.WordNames.{word_bytes};
ghost use Rattle.ir_event.specs.trees.Maps.{map_entry};
ghost use Rattle.op_registry.specs.Properties as properties;
ghost use Rattle.op_registry.specs.Registry.{next_to};
ghost use Rattle.ir_event.specs.Modules.{NodeIsOf};
ghost use Rattle.listeners_symbols.specs.Roles as roles;
ghost use Rattle.listeners_symbols.specs.Table.{head_meaning, signature_meaning, SignatureIsOf};

use crate::boxed::Boxed;
use crate::role::Signature;
use ir_event::types::context::Context;
use ir_event::types::ids::{AttrId, NameId, TypeId};
use ir_event::types::node::AttrNode;
use ir_event::types::things::attr_of;
use ir_event::types::word::Word;
use listeners_support::node::Node;
use listeners_support::properties::{entry, string_of};
use op_registry::signature;
use smallvec::SmallVec;
use std::alloc::{AllocError, Global};

/// Returns the name of the symbol that an operation defines, if it defines one.
pub(crate) fn symbol_of(ctx: &Context, node: &Node<'_>) -> Option<NameId>
    requires { NodeIsOf ctx.now node.now }
    ensures symbol { option_map (name_term ctx.now) result ≡ roles.symbol_of (head_meaning ctx.now node.now.head) }
    ensures known { IfSome result (λ n. IsName ctx.now n) }
{
    if !ctx.table(node.name()) && !ctx.is_word(node.name(), Word::FuncFunc) {
        return None;
    }
    let attr = entry(ctx, node.properties(), Word::SymName)?;
    string_of(ctx, attr)
}

/// Returns the string with the key `sym_name` in a dictionary, if there is one.
fn name_in(ctx: &Context, entries: &[(NameId, AttrId)]) -> Option<NameId>
    requires { All (λ e. IsName ctx.now e.0 × IsAttr ctx.now e.1) entries.now }
    ensures name { option_map (name_term ctx.now) result
        ≡ roles.name_in (map (map_entry (name_term ctx.now) (attr_term ctx.now)) entries.now) }
    ensures known { IfSome result (λ n. IsName ctx.now n) }
{
    let attr = entry(ctx, entries, Word::SymName)?;
    string_of(ctx, attr)
}

/// Returns the string with the key `sym_name` of an operation, in its properties or else in its attributes.
pub(crate) fn name_of(ctx: &Context, node: &Node<'_>) -> Option<NameId>
    requires { NodeIsOf ctx.now node.now }
    ensures name { option_map (name_term ctx.now) result ≡ roles.name_of (head_meaning ctx.now node.now.head) }
    ensures known { IfSome result (λ n. IsName ctx.now n) }
{
    let Some(name) = name_in(ctx, node.properties()) else {
        return name_in(ctx, node.attributes());
    };
    Some(name)
}

/// Returns the visibility of an operation as a symbol, if it has one.
fn visibility_of(ctx: &Context, node: &Node<'_>) -> Option<NameId>
    requires { NodeIsOf ctx.now node.now }
    ensures { option_map (name_term ctx.now) result ≡ option_and_then properties.string_of
        (next_to (word_bytes Word.SymVisibility) (head_meaning ctx.now node.now.head).properties) }
{
    let attr = entry(ctx, node.properties(), Word::SymVisibility)?;
    string_of(ctx, attr)
}

/// Returns whether a visibility is `private`.
fn says_private(ctx: &Context, visibility: Option<NameId>) -> bool
    ensures { result ≡ roles.says_private (option_map (name_term ctx.now) visibility) }
{
    match visibility {
        None => false,
        Some(name) => ctx.is_word(name, Word::Private),
    }
}

/// Returns whether an operation's visibility is `private` (Symbols and Symbol Tables, "Symbol Visibility").
pub(crate) fn is_private(ctx: &Context, node: &Node<'_>) -> bool
    requires { NodeIsOf ctx.now node.now }
    ensures { result ≡ roles.is_private (head_meaning ctx.now node.now.head) }
{
    says_private(ctx, visibility_of(ctx, node))
}

/// Returns the parts of the symbol that an operation calls, if it calls one.
pub(crate) fn callee_of<'a>(ctx: &'a Context, node: &Node<'_>) -> Option<&'a [NameId]>
    requires { NodeIsOf ctx.now node.now }
    ensures parts { option_map (λ parts. map (name_term ctx.now) parts.now) result
        ≡ roles.callee_of (head_meaning ctx.now node.now.head) }
    ensures known { IfSome result (λ parts. All (IsName ctx.now) parts.now) }
{
    if !ctx.is_word(node.name(), Word::FuncCall) {
        return None;
    }
    let attr = entry(ctx, node.properties(), Word::Callee)?;
    parts_of(ctx, attr)
}

/// Returns the parts of a symbol reference, or `None` if the attribute isn't one.
fn parts_of(ctx: &Context, attr: AttrId) -> Option<&[NameId]>
    requires { IsAttr ctx.now attr }
    ensures parts { option_map (λ parts. map (name_term ctx.now) parts.now) result
        ≡ roles.parts_of (attr_term ctx.now attr) }
    ensures known { IfSome result (λ parts. All (IsName ctx.now) parts.now) }
{
    parts_in(attr_of(ctx, attr))
}

fn parts_in(node: &AttrNode) -> Option<&[NameId]>
    ensures parts { (names : List (List ℕ)) (types : List TypeTerm) (attrs : List AttrTerm)
        → option_map (λ parts. map (λ n. slice_index_or names n []) parts.now) result
        ≡ roles.parts_of (attr_from names types attrs node.now) }
    ensures known { (c : ContextModel) → AttrIsOf c node.now → IfSome result (λ parts. All (IsName c) parts.now) }
{
    match node {
        AttrNode::Int { .. } => None,
        AttrNode::Str(_) => None,
        AttrNode::Ty(_) => None,
        AttrNode::Unit => None,
        AttrNode::Array(_) => None,
        AttrNode::Dict(_) => None,
        AttrNode::Sym(parts) => Some(parts.as_slice()),
        AttrNode::Dense { .. } => None,
        AttrNode::Overflow { .. } => None,
        AttrNode::Opaque { .. } => None,
    }
}

/// Returns the function type of an operation, or `None` if it isn't a function.
fn function_type<'a>(ctx: &'a Context, node: &Node<'_>) -> Option<signature::Signature<'a>>
    requires { NodeIsOf ctx.now node.now }
    ensures signature { option_map
        (λ s. (map (type_term ctx.now) s.inputs.now, map (type_term ctx.now) s.outputs.now)) result
        ≡ roles.signature_of (head_meaning ctx.now node.now.head) }
    ensures inputs { IfSome result (λ s. All (λ t. IsType ctx.now t) s.inputs.now) }
    ensures outputs { IfSome result (λ s. All (λ t. IsType ctx.now t) s.outputs.now) }
{
    if !ctx.is_word(node.name(), Word::FuncFunc) {
        return None;
    }
    let attr = entry(ctx, node.properties(), Word::FunctionType)?;
    signature::signature_of(ctx, signature::type_in(attr_of(ctx, attr))?)
}

/// Returns the inputs and outputs of an operation, or `None` if it isn't a function.
pub(crate) fn function_of(
    alloc: Global,
    ctx: &Context,
    node: &Node<'_>,
) -> Result<Option<Boxed<Signature>>, AllocError>
    requires { NodeIsOf ctx.now node.now }
    ensures signature { IfOk result
        (λ s. option_map (signature_meaning ctx.now) s ≡ roles.signature_of (head_meaning ctx.now node.now.head)) }
    ensures known { IfOk result (λ s. IfSome s (SignatureIsOf ctx.now)) }
{
    let Some(types) = function_type(ctx, node) else {
        return Ok(None);
    };
    let inputs = SmallVec::from_slice(alloc, types.inputs)?;
    let outputs = SmallVec::from_slice(alloc, types.outputs)?;
    let signature = Boxed::new(alloc, Signature { inputs, outputs })?;
    Ok(Some(signature))
}
