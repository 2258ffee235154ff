//! Sets and removes entries by the numbers of their keys.
ghost use Rattle.std.specs.Prelude.{◌≡◌};
ghost use Rattle.rewriter.specs.RewriterCalls.{AgreesOrStale, reply_of};
ghost use Rattle.mlir_work_c_read.specs.Edits.{DropsNumbered, SetsNumbered};

use ir_event::analysis::Analysis;
use ir_event::types::ids::{AttrId, NameId, OpId};
use ir_event::types::refusal::Refusal;
use rewriter::Bench;
use rewriter::laws::led_benches_are_kept;

/// Sets the entry of an operation at a key.
///
/// Refusals, in this order: `BadCommand` if the context doesn't have the key or the attribute; those of
/// `Bench::set_attr`.
pub fn set_attribute<L: Analysis>(
    bench: &mut Bench<L>,
    op: OpId,
    key: NameId,
    attr: AttrId,
) -> Result<(), Refusal>
    requires { AgreesOrStale L.meaning bench.old }
    ensures sets { SetsNumbered L.meaning op key attr (reply_of result) bench.old bench.new }
    ensures kept { AgreesOrStale L.meaning bench.new }
    ensures mode { bench.new.transaction.ctx.opaque ≡ bench.old.transaction.ctx.opaque }
{
    led_benches_are_kept::<L>();
    if !bench.world().ctx.has_name(key) {
        return Err(Refusal::BadCommand);
    }
    if !bench.world().ctx.has_attr(attr) {
        return Err(Refusal::BadCommand);
    }
    bench.set_attr(op, key, attr)
}

/// Removes the entry of an operation at a key.
///
/// Refusals, in this order: `BadCommand` if the context doesn't have the key; those of `Bench::drop_attr`.
pub fn drop_attribute<L: Analysis>(
    bench: &mut Bench<L>,
    op: OpId,
    key: NameId,
) -> Result<(), Refusal>
    requires { AgreesOrStale L.meaning bench.old }
    ensures drops { DropsNumbered L.meaning op key (reply_of result) bench.old bench.new }
    ensures kept { AgreesOrStale L.meaning bench.new }
    ensures mode { bench.new.transaction.ctx.opaque ≡ bench.old.transaction.ctx.opaque }
{
    led_benches_are_kept::<L>();
    if !bench.world().ctx.has_name(key) {
        return Err(Refusal::BadCommand);
    }
    bench.drop_attr(op, key)
}
