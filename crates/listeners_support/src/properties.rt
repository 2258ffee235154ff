//! The entries of operations' dictionaries, by the words that are their keys.
ghost use Rattle.std.specs.Prelude.{◌≡◌, IfSome, List, [], ℕ, map, slice_index_or};
ghost use Rattle.std.specs.List.{All};
ghost use Rattle.std.specs.Option.{option_map};
ghost use Rattle.std.specs.Str.{bytes_eq};
ghost use Rattle.ir_event.specs.types.Things.{ContextModel, IsName, IsAttr, AttrIsOf};
ghost use Rattle.ir_event.specs.types.Terms.{TypeTerm, AttrTerm, attr_from, attr_term, name_term};
ghost use Rattle.ir_event.specs.types.WordNames.{word_bytes};
ghost use Rattle.ir_event.specs.trees.Maps.{map_entry};
ghost use Rattle.ir_event.specs.registry.Registry.{next_to};
ghost use Rattle.ir_event.specs.registry.Properties as properties;

use ir_event::types::context::Context;
use ir_event::types::ids::{AttrId, NameId};
use ir_event::types::node::AttrNode;
use ir_event::types::things::attr_of;
use ir_event::types::word::Word;

/// Returns the attribute at a key of a dictionary, if there is one.
pub fn entry(ctx: &Context, entries: &[(NameId, AttrId)], key: Word) -> Option<AttrId>
    requires { All (λ e. IsName ctx.now e.0 × IsAttr ctx.now e.1) entries.now }
    ensures entry { option_map (attr_term ctx.now) result
        ≡ next_to (word_bytes key) (map (map_entry (name_term ctx.now) (attr_term ctx.now)) entries.now) }
    ensures attr { IfSome result (λ a. IsAttr ctx.now a) }
{
    let mut rest = entries;
    while let [(name, attr), tail @ ..] = rest {
        if is_key(ctx, *name, key) {
            return Some(*attr);
        }
        rest = tail;
    }
    None
}

/// Returns whether the name is the key.
fn is_key(ctx: &Context, name: NameId, key: Word) -> bool
    ensures { result ≡ bytes_eq (word_bytes key) (name_term ctx.now name) }
{
    ctx.is_word(name, key)
}

/// Returns the string of a string attribute, by the number of its bytes.
pub fn string_of(ctx: &Context, attr: AttrId) -> Option<NameId>
    requires { IsAttr ctx.now attr }
    ensures string { option_map (name_term ctx.now) result ≡ properties.string_of (attr_term ctx.now attr) }
    ensures known { IfSome result (λ n. IsName ctx.now n) }
{
    string_in(attr_of(ctx, attr))
}

fn string_in(node: &AttrNode) -> Option<NameId>
    ensures string { (names : List (List ℕ)) (types : List TypeTerm) (attrs : List AttrTerm) → option_map
        (λ n. slice_index_or names n []) result ≡ properties.string_of (attr_from names types attrs node.now) }
    ensures known { (c : ContextModel) → AttrIsOf c node.now → IfSome result (λ n. IsName c n) }
{
    match node {
        AttrNode::Int { .. } => None,
        AttrNode::Str(name) => Some(*name),
        AttrNode::Ty(_) => None,
        AttrNode::Unit => None,
        AttrNode::Array(_) => None,
        AttrNode::Dict(_) => None,
        AttrNode::Sym(_) => None,
        AttrNode::Dense { .. } => None,
        AttrNode::Overflow { .. } => None,
        AttrNode::Opaque { .. } => None,
    }
}
