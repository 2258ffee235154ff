//! Operations that name no symbol.
ghost use Rattle.std.specs.Prelude.{◌≡◌, List, ℕ, map};
ghost use Rattle.std.specs.Bool.{OnTrue};
ghost use Rattle.std.specs.List.{All};
ghost use Rattle.ir_event.specs.types.Things.{IsName, IsAttr};
ghost use Rattle.ir_event.specs.types.Terms.{TypeTerm, AttrTerm, attr_from, attr_term, name_term};
ghost use Rattle.ir_event.specs.trees.Maps.{map_entry};
ghost use Rattle.ir_event.specs.Modules.{NodeIsOf};
ghost use Rattle.listeners_symbols.specs.Roles as roles;
ghost use Rattle.listeners_symbols.specs.Nameless as nameless;
ghost use Rattle.listeners_symbols.specs.Nameless.{NamesNothing};
ghost use Rattle.listeners_symbols.specs.Table.{head_meaning};

use ir_event::types::context::Context;
use ir_event::types::ids::{AttrId, NameId};
use ir_event::types::node::AttrNode;
use ir_event::types::things::attr_of;
use ir_event::types::word::Word;
use listeners_support::node::Node;

/// Returns whether an attribute is a number, a type, a flag or opaque: no string, and without other attributes.
fn is_nameless_node(node: &AttrNode) -> bool
    ensures { (names : List (List ℕ)) (types : List TypeTerm) (attrs : List AttrTerm)
        → result ≡ nameless.is_nameless (attr_from names types attrs node.now) }
{
    match node {
        AttrNode::Int { .. } => true,
        AttrNode::Str(_) => false,
        AttrNode::Ty(_) => true,
        AttrNode::Unit => true,
        AttrNode::Array(_) => false,
        AttrNode::Dict(_) => false,
        AttrNode::Sym(_) => false,
        AttrNode::Dense { .. } => true,
        AttrNode::Overflow { .. } => true,
        AttrNode::Opaque { .. } => true,
    }
}

/// Returns whether an attribute names nothing.
fn is_nameless(ctx: &Context, attr: AttrId) -> bool
    requires { IsAttr ctx.now attr }
    ensures { result ≡ nameless.is_nameless (attr_term ctx.now attr) }
{
    is_nameless_node(attr_of(ctx, attr))
}

/// Returns whether the attributes of a dictionary name nothing.
fn are_nameless(ctx: &Context, entries: &[(NameId, AttrId)]) -> bool
    requires { All (λ e. IsName ctx.now e.0 × IsAttr ctx.now e.1) entries.now }
    ensures { result
        ≡ nameless.are_nameless (map (map_entry (name_term ctx.now) (attr_term ctx.now)) entries.now) }
{
    let mut rest = entries;
    'entries: while let [(_, attr), more @ ..] = rest {
        if !is_nameless(ctx, *attr) {
            return false;
        }
        rest = more;
    }
    true
}

/// Returns whether an operation is no symbol table and no function, and its attributes name nothing. Returns `false` if
/// it has an array or a dictionary.
pub(crate) fn names_nothing(ctx: &Context, node: &Node<'_>) -> bool
    requires { NodeIsOf ctx.now node.now }
    ensures { OnTrue result (NamesNothing (head_meaning ctx.now node.now.head)) }
{
    if ctx.table(node.name()) || ctx.is_word(node.name(), Word::FuncFunc) {
        return false;
    }
    are_nameless(ctx, node.properties()) && are_nameless(ctx, node.attributes())
}
