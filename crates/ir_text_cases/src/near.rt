//! The outer module of an operation's text.
ghost use Rattle.std.specs.Prelude.{◌≡◌, IfSome};
ghost use Rattle.ir_types.specs.Things.{IsType};
ghost use Rattle.ir_tree.specs.declared.value.Value.{Value as TreeValue};
ghost use Rattle.ir_text_cases.specs.Near.{type_of};

use ir_tree::outer::Outer;
use ir_tree::value::Value;
use ir_types::context::Context;
use ir_types::ids::TypeId;
use ir_types::node::{Sign, TypeNode};

/// A module in which all results have one type and all arguments another. Either type may be missing.
#[derive(Drop)]
pub struct Near {
    pub results: Option<TypeId>,
    pub arguments: Option<TypeId>,
    pub next: u32,
}

impl Outer for Near {
    ghost types = { λ m. type_of m.results m.arguments };

    ghost next = { λ m. m.next };

    fn value_type(&self, value: Value) -> Option<TypeId> {
        match value {
            Value::Result(_, _) => self.results,
            Value::Arg(_, _, _) => self.arguments,
        }
    }

    fn next_id(&self) -> u32 {
        self.next
    }
}

/// Returns the signless integer type of a width, or `None`.
fn integer(ctx: &mut Context, width: &str) -> Option<TypeId> {
    let node = TypeNode::Int {
        sign: Sign::Signless,
        width: width.parse::<u32>().unwrap_or(0),
    };
    ctx.ty(node).ok()
}

fn known(ctx: &Context, ty: Option<TypeId>) -> Option<TypeId>
    ensures { IfSome result (λ ty. IsType ctx.now ty) }
{
    match ty {
        Some(ty) if ctx.has_type(ty) => Some(ty),
        _ => None,
    }
}

/// Returns the module that `words` describes, such as `9/32/-`: its next id, the width of its results, and the width
/// of its arguments.
pub fn near_of(ctx: &mut Context, words: &str) -> Near
    ensures { (v : TreeValue) → IfSome (type_of result.results result.arguments v) (λ ty. IsType ctx.new ty) }
{
    let (next, types) = words.split_once('/').unwrap_or((words, ""));
    let (results, arguments) = types.split_once('/').unwrap_or((types, ""));
    let results = integer(ctx, results);
    let arguments = integer(ctx, arguments);
    Near {
        results: known(ctx, results),
        arguments: known(ctx, arguments),
        next: next.parse::<u32>().unwrap_or(0),
    }
}
