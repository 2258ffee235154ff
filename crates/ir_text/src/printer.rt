//! Prints a module.
ghost use Rattle.std.specs.Prelude.{◌≡◌, IfOk, IfErr, IsTrue};
ghost use Rattle.ir_tree.specs.Meaning.{meaning, is_known};
ghost use Rattle.ir_text.specs.Printing.{text_of};

use crate::naming::Printer;
use crate::operations::print_op;
use indexmap::IndexMap;
pub use ir_text_tokens::print::print_symbol;
use ir_tree::tree::TreeOp;
use ir_types::context::Context;
use ir_types::refusal::Refusal;
use std::alloc::Global;

/// Returns the text of an operation with its regions, in the generic form (Language Reference, "Operations"). Values
/// are numbered from 0 in pre-order.
///
/// Refusals: only `Memory`.
pub fn print(alloc: Global, ctx: &Context, tree: &TreeOp) -> Result<Vec<u8>, Refusal>
    requires { IsTrue (is_known ctx.now tree.now) }
    ensures ok { IfOk result (λ text. text.items ≡ text_of (meaning ctx.now tree.now)) }
    ensures refused { IfErr result (λ refusal. refusal ≡ Refusal.Memory) }
{
    let mut out = Printer {
        text: Vec::new(alloc),
        named: IndexMap::new(alloc),
        results: 0,
        arguments: 0,
    };
    match print_op(ctx, &mut out, b"", tree) {
        Ok(()) => Ok(out.text),
        Err(error) => Err(Refusal::from(error)),
    }
}
