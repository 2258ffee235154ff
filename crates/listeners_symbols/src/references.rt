//! The symbol references in an operation's dictionaries.
ghost use Rattle.std.specs.Prelude.{◌≡◌, ◌<◌, length, map, OnOk, IfOk};
ghost use Rattle.std.specs.List.{All};
ghost use Rattle.ir_event.specs.types.Things.{IsName, IsAttr};
ghost use Rattle.ir_event.specs.types.Terms.{attr_term, attr_terms, attrs_at, entries_at, name_term, Symbol};
ghost use Rattle.ir_event.specs.trees.Maps.{map_entry};
ghost use Rattle.ir_event.specs.Modules.{NodeIsOf};
ghost use Rattle.listeners_symbols.specs.Found.{found_meaning, IsFound};
ghost use Rattle.listeners_symbols.specs.Roles.{references_of, with_dictionary, with_each, with_entries};
ghost use Rattle.listeners_symbols.specs.Roles.{with_reference, with_symbols};
ghost use Rattle.listeners_symbols.specs.Table.{head_meaning, reference_meaning, ReferenceIsOf};

use crate::role::Reference;
use ir_event::types::context::Context;
use ir_event::types::ids::{AttrId, NameId};
use ir_event::types::node::AttrNode;
use listeners_support::node::Node;
use op_registry::things::attr_of;
use std::alloc::{AllocError, Global};
use std::collections::BTreeSet;

/// The references found so far, and their attributes.
#[derive(Drop)]
pub(crate) struct FoundReferences {
    /// Each reference once, in the order of first occurrence.
    list: Vec<Reference>,
    /// The attributes of the listed references.
    seen: BTreeSet<AttrId>,
}

/// Adds a reference if it isn't in the list. References with the same parts are the same attribute.
fn add(
    alloc: Global,
    ctx: &Context,
    path: AttrId,
    parts: &[NameId],
    out: &mut FoundReferences,
) -> Result<(), AllocError>
    requires path { IsAttr ctx.now path }
    requires symbol { attr_term ctx.now path ≡ Symbol (map (name_term ctx.now) parts.now) }
    requires parts { All (IsName ctx.now) parts.now }
    requires out { IsFound ctx.now out.old }
    ensures added { OnOk result
        (found_meaning ctx.now out.new
        ≡ with_reference (found_meaning ctx.now out.old) (attr_term ctx.now path, map (name_term ctx.now) parts.now)) }
    ensures found { OnOk result (IsFound ctx.now out.new) }
{
    ctx.sound();
    if out.seen.contains(&path) {
        return Ok(());
    }
    let parts = Vec::from_slice(alloc, parts)?;
    out.list.push(Reference { path, parts })?;
    out.seen.insert(path)?;
    Ok(())
}

/// Adds the references in an attribute, depth first.
#[cycle(references)]
fn add_attr(
    alloc: Global,
    ctx: &Context,
    id: AttrId,
    out: &mut FoundReferences,
) -> Result<(), AllocError>
    requires id { IsAttr ctx.now id }
    requires out { IsFound ctx.now out.old }
    ensures added { OnOk result
        (found_meaning ctx.now out.new ≡ with_symbols (found_meaning ctx.now out.old) (attr_term ctx.now id)) }
    ensures found { OnOk result (IsFound ctx.now out.new) }
{
    match attr_of(ctx, id) {
        AttrNode::Int { .. } => Ok(()),
        AttrNode::Str(_) => Ok(()),
        AttrNode::Ty(_) => Ok(()),
        AttrNode::Unit => Ok(()),
        AttrNode::Array(items) => add_attrs(alloc, ctx, items.as_slice(), out),
        AttrNode::Dict(entries) => add_entries(alloc, ctx, entries.as_slice(), out),
        AttrNode::Sym(parts) => add(alloc, ctx, id, parts.as_slice(), out),
        AttrNode::Dense { .. } => Ok(()),
        AttrNode::Overflow { .. } => Ok(()),
        AttrNode::Opaque { .. } => Ok(()),
    }
}

/// Adds the references in a list of attributes.
#[cycle(references)]
fn add_attrs(
    alloc: Global,
    ctx: &Context,
    ids: &[AttrId],
    out: &mut FoundReferences,
) -> Result<(), AllocError>
    requires ids { All (λ a. a < length ctx.now.attrs) ids.now }
    requires out { IsFound ctx.now out.old }
    ensures added { OnOk result
        (found_meaning ctx.now out.new
        ≡ with_each (found_meaning ctx.now out.old) (attrs_at (attr_terms ctx.now) ids.now)) }
    ensures found { OnOk result (IsFound ctx.now out.new) }
{
    let mut rest = ids;
    'ids: while let [id, more @ ..] = rest {
        add_attr(alloc, ctx, *id, out)?;
        rest = more;
    }
    Ok(())
}

/// Adds the references in the entries of a dictionary.
#[cycle(references)]
fn add_entries(
    alloc: Global,
    ctx: &Context,
    entries: &[(NameId, AttrId)],
    out: &mut FoundReferences,
) -> Result<(), AllocError>
    requires entries { All (λ e. e.1 < length ctx.now.attrs) entries.now }
    requires out { IsFound ctx.now out.old }
    ensures added { OnOk result
        (found_meaning ctx.now out.new
        ≡ with_entries (found_meaning ctx.now out.old) (entries_at ctx.now.names (attr_terms ctx.now) entries.now)) }
    ensures found { OnOk result (IsFound ctx.now out.new) }
{
    let mut rest = entries;
    'entries: while let [(_, attr), more @ ..] = rest {
        add_attr(alloc, ctx, *attr, out)?;
        rest = more;
    }
    Ok(())
}

/// Adds the references in a dictionary of an operation.
fn add_dictionary(
    alloc: Global,
    ctx: &Context,
    entries: &[(NameId, AttrId)],
    out: &mut FoundReferences,
) -> Result<(), AllocError>
    requires entries { All (λ e. IsName ctx.now e.0 × IsAttr ctx.now e.1) entries.now }
    requires out { IsFound ctx.now out.old }
    ensures added { OnOk result
        (found_meaning ctx.now out.new ≡ with_dictionary (found_meaning ctx.now out.old)
        (map (map_entry (name_term ctx.now) (attr_term ctx.now)) entries.now)) }
    ensures found { OnOk result (IsFound ctx.now out.new) }
{
    add_entries(alloc, ctx, entries, out)
}

/// Returns the symbol references in the dictionaries of an operation, each once, in the order of first occurrence.
pub(crate) fn references_of(
    alloc: Global,
    ctx: &Context,
    node: &Node<'_>,
) -> Result<Vec<Reference>, AllocError>
    requires { NodeIsOf ctx.now node.now }
    ensures references { IfOk result
        (λ v. map (reference_meaning ctx.now) v.items ≡ references_of (head_meaning ctx.now node.now.head)) }
    ensures known { IfOk result (λ v. All (ReferenceIsOf ctx.now) v.items) }
{
    let mut found = FoundReferences {
        list: Vec::new(alloc),
        seen: BTreeSet::new(alloc),
    };
    add_dictionary(alloc, ctx, node.properties(), &mut found)?;
    add_dictionary(alloc, ctx, node.attributes(), &mut found)?;
    let FoundReferences { list, seen } = found;
    drop(seen);
    Ok(list)
}
