//! Inserts an operation whose name, operands, types and entries are numbers.
ghost use Rattle.std.specs.Prelude.{◌≡◌, Some, true};
ghost use Rattle.ir_event.specs.tree_laws.Reasons.{holds_none};
ghost use Rattle.rewriter.specs.RewriterCalls.{AgreesOrStale, id_reply_of};
ghost use Rattle.mlir_work_script_base.specs.InsertionPoints.{insertion_point_of};
ghost use Rattle.mlir_work_c_read.specs.Edits.{InsertsHeader};

use ir_event::analysis::Analysis;
use ir_event::trees::sound::sound;
use ir_event::trees::tree::TreeOp;
use ir_event::types::ids::OpId;
use ir_event::types::refusal::Refusal;
use mlir_work_script_base::insertion_points::InsertionPoint;
use mlir_work_script_base::places::place_for;
use rewriter::Bench;
use rewriter::laws::led_benches_are_kept;

/// Inserts an operation with empty blocks at an insertion point, and returns its id, which is the next free id.
///
/// Refusals, in this order: `BadCommand` if the context doesn't have a number of the operation, or if its dictionaries
/// aren't sorted by the texts of their keys, as those of `header_of` are; those of the insertion point; those of
/// `Bench::make`.
pub fn insert<L: Analysis>(
    bench: &mut Bench<L>,
    point: &InsertionPoint,
    header: &TreeOp,
) -> Result<OpId, Refusal>
    requires kept { AgreesOrStale L.meaning bench.old }
    requires bare { holds_none (Some header.now) ≡ true }
    ensures inserts { InsertsHeader L.meaning (insertion_point_of point.now) header.now (id_reply_of result) bench.old bench.new }
    ensures kept { AgreesOrStale L.meaning bench.new }
    ensures mode { bench.new.transaction.ctx.opaque ≡ bench.old.transaction.ctx.opaque }
{
    led_benches_are_kept::<L>();
    if !sound(&bench.world().ctx, header) {
        return Err(Refusal::BadCommand);
    }
    let place = match place_for(bench.world(), None, point) {
        Ok(place) => place,
        Err(refusal) => return Err(refusal),
    };
    bench.make(place, header)
}
