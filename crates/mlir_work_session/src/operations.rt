//! Parses the operation text of an `insert` command in the scope of the module.
ghost use Rattle.std.specs.Prelude.{◌≡◌, ℕ, Err, IfOk, IfErr};
ghost use Rattle.ir_event.specs.trees.Ids.{IsNumberedFrom};
ghost use Rattle.ir_event.specs.trees.Meaning.{IsSoundIn, meaning};
ghost use Rattle.ir_event.specs.types.declared.refusal.Refusal.{Refusal as Reason};
ghost use Rattle.ir_text.specs.Public.{IsOpRefusal as IsOpReported};
ghost use Rattle.ir_text.specs.Public.{IsNone};
ghost use Rattle.mlir_work_transforms.specs.rewriter.Held.{module_held};
ghost use Rattle.mlir_work_transforms.specs.rewriter.Texts.{SpellsNextTo};
ghost use Rattle.mlir_work_transforms.specs.rewriter.Commands.{IsOpRefusal};
ghost use Rattle.mlir_work_session.specs.Texts.{Grown, NotRead};
ghost use Rattle.mlir_work_session.specs.Machine.{response_of};

use crate::parse_error::reply_unparsed;
use crate::reply::Reply;
use ir_event::analysis::Analysis;
use ir_event::trees::tree::TreeOp;
use ir_text::reader::ReadError;
use mlir_work_transforms::rewriter::Bench;
use mlir_work_transforms::rewriter::laws::led_benches_are_kept;

/// Parses an operation text. The text may use the module's values.
fn read<L: Analysis>(bench: &mut Bench<L>, text: &[u8]) -> Result<TreeOp, ReadError>
    ensures read { IfOk result (λ t. SpellsNextTo bench.old.transaction.ctx.opaque (module_held bench.old.transaction) text.now (meaning bench.new.transaction.ctx t)) }
    ensures sound { IfOk result (λ t. IsSoundIn bench.new.transaction.ctx t) }
    ensures numbered { IfOk result (λ t. IsNumberedFrom bench.new.transaction.store.module_of.next t) }
    ensures refused { (r : Reason) (o : ℕ) → result ≡ Err (ReadError.Refused r o) → IsNone (SpellsNextTo bench.old.transaction.ctx.opaque (module_held bench.old.transaction) text.now) }
    ensures reported { IfErr result (λ e. IsOpReported text.now e) }
    ensures grown { Grown L.meaning bench.old bench.new }
{
    led_benches_are_kept::<L>();
    bench.world().ctx.sound();
    let read = bench.read_op(text);
    bench.world().ctx.sound();
    read
}

/// Parses an operation text and numbers its operations from the module's next id. Returns the reply to write if
/// parsing fails; `bytes` is the length of the whole input.
pub(crate) fn operation_of<L: Analysis>(
    bytes: usize,
    bench: &mut Bench<L>,
    text: &[u8],
) -> Result<TreeOp, Reply>
    ensures read { IfOk result (λ t. SpellsNextTo bench.old.transaction.ctx.opaque (module_held bench.old.transaction) text.now (meaning bench.new.transaction.ctx t)) }
    ensures sound { IfOk result (λ t. IsSoundIn bench.new.transaction.ctx t) }
    ensures numbered { IfOk result (λ t. IsNumberedFrom bench.new.transaction.store.module_of.next t) }
    ensures unparsed { IfErr result (λ reply. NotRead bytes IsOpRefusal (SpellsNextTo bench.old.transaction.ctx.opaque (module_held bench.old.transaction) text.now) (response_of reply)) }
    ensures grown { Grown L.meaning bench.old bench.new }
{
    match read(bench, text) {
        Ok(tree) => Ok(tree),
        Err(error) => Err(reply_unparsed(bytes, &error)),
    }
}
