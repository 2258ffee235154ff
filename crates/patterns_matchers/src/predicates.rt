//! The predicates of comparisons, by their numbers.
ghost use Rattle.std.specs.Prelude.{◌≡◌, List, ℕ, option_map, codes};
ghost use Rattle.std.specs.List.{All};
ghost use Rattle.std.specs.Str.{bytes_eq};
ghost use Rattle.ir_event.specs.types.Things.{IsAttr, IsName};
ghost use Rattle.ir_event.specs.types.Terms.{attr_term, name_term};
ghost use Rattle.ir_event.specs.Modules.{NodeIsOf};
ghost use Rattle.dialects_int.specs.Folds.{entries_of};
ghost use Rattle.patterns_base.specs.Keeps.{is_true_when_equal, swapped_predicate};
ghost use Rattle.patterns_base.specs.Looks.{predicate};
ghost use Rattle.patterns_matchers.specs.Reads.{header_of_node};
ghost use Rattle.patterns_matchers.specs.Numbers.{number_of, predicate_among};

use ir_event::store::node::Node;
use ir_event::types::context::Context;
use ir_event::types::ids::{AttrId, NameId};
use ir_event::types::word::Word;
use op_registry::property::integer_of;

/// Returns the number of a comparison's predicate, or `None` if the operation has none.
pub fn predicate(ctx: &Context, node: &Node<'_>) -> Option<u128>
    requires { NodeIsOf ctx.now node.now }
    ensures { result ≡ predicate (header_of_node ctx.now node.now) }
{
    predicate_among(ctx, node.properties())
}

/// Returns the number of the property `predicate` among some properties.
fn predicate_among(ctx: &Context, entries: &[(NameId, AttrId)]) -> Option<u128>
    requires { All (λ e. IsName ctx.now e.0 × IsAttr ctx.now e.1) entries.now }
    ensures { result ≡ predicate_among (entries_of ctx.now entries.now) }
{
    let mut rest = entries;
    'entries: while let [(key, attr), tail @ ..] = rest {
        if is_key(ctx, *key) {
            return number_of(ctx, *attr);
        }
        rest = tail;
    }
    None
}

/// Returns whether a name is `predicate`.
fn is_key(ctx: &Context, name: NameId) -> bool
    ensures { result ≡ bytes_eq (codes "predicate") (name_term ctx.now name) }
{
    ctx.is_word(name, Word::Predicate)
}

/// Returns the number of an integer attribute, or `None` for another attribute.
fn number_of(ctx: &Context, attr: AttrId) -> Option<u128>
    requires { IsAttr ctx.now attr }
    ensures { result ≡ number_of (attr_term ctx.now attr) }
{
    match integer_of(ctx, attr) {
        Some((_, bits)) => Some(bits),
        None => None,
    }
}

/// Returns the result of a comparison of a value and itself, by the number of its predicate.
pub fn is_true_when_equal(asks: u128) -> u128
    ensures { result ≡ is_true_when_equal asks }
{
    if asks == 0 || asks == 3 || asks == 5 || asks == 7 || asks == 9 {
        1
    } else {
        0
    }
}

/// Returns the predicate that gives the same result for swapped operands.
pub fn swapped_predicate(asks: u128) -> u128
    ensures { result ≡ swapped_predicate asks }
{
    const MIRRORED: [u128; 10] = [0, 1, 4, 5, 2, 3, 8, 9, 6, 7];
    if asks < 10 {
        MIRRORED[asks as usize]
    } else {
        asks
    }
}
