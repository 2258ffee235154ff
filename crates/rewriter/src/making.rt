//! Inserts the headers of an operation one after another.
ghost use Rattle.std.specs.Prelude.{◌≡◌, ◌≢◌, ◌⊎◌, None, OnOk};
ghost use Rattle.ir_event.specs.types.declared.refusal.Refusal.TheVariants.{Memory as MemoryRefusal};
ghost use Rattle.ir_event.specs.types.declared.refusal.Refusal.TheVariants.{NotVisible as Unseen};
ghost use Rattle.ir_event.specs.trees.Ids.{IsNumberedFrom};
ghost use Rattle.ir_event.specs.trees.Meaning.{IsSoundIn};
ghost use Rattle.rewriter.specs.Contents.{tests_in};
ghost use Rattle.rewriter.specs.Edits.{Insert, edited_by, reason_by};
ghost use Rattle.rewriter.specs.Moves.{IsAnswered};
ghost use Rattle.rewriter_machine.specs.Inserting.{insert_fault};
ghost use Rattle.rewriter.specs.Wholes.{Onward};
ghost use Rattle.rewriter.specs.Creating.{AreHeadersOf, InsertsEach};

use crate::bench::Bench;
use crate::headers::headers_of;
use crate::laws::led_benches_are_kept;
use ir_event::analysis::Analysis;
use ir_event::trees::place::Place;
use ir_event::trees::tree::TreeOp;
use ir_event::types::refusal::Refusal;
use rewriter_machine::edit_laws::{headers_are_bare, inserting_is_making};
use rewriter_machine::step_laws::inserts_are_tried;

/// Inserts `headers` one after another, until one is refused.
fn make_each<L: Analysis>(
    bench: &mut Bench<L>,
    headers: &Vec<(Place, TreeOp)>,
) -> Result<(), Refusal>
    requires { AreHeadersOf bench.old.transaction.ctx headers.now.items }
    ensures onward { Onward L.meaning bench.old bench.new }
    ensures pattern_set { InsertsEach (tests_in bench.old.transaction.ctx) headers.now.items bench.old.transaction.store.module_of result
        bench.new.transaction.store.module_of }
{
    inserting_is_making::<u32, u32, u32>();
    led_benches_are_kept::<L>();
    bench.is_wellformed();
    for header in headers {
        if let Err(refusal) = bench.make(header.0, &header.1) {
            return Err(refusal);
        }
    }
    Ok(())
}

/// Returns the refusal of the whole insertion for the refusal of one header: `Memory` for `Memory`, and otherwise that
/// an operand isn't visible.
fn refused_whole(refusal: Refusal) -> Refusal
    ensures { (result ≡ MemoryRefusal) ⊎ ((result ≡ Unseen) × (refusal ≢ MemoryRefusal)) }
{
    if refusal == Refusal::Memory {
        return Refusal::Memory;
    }
    Refusal::NotVisible
}

/// Inserts the headers of an operation at `place`, until one is refused.
pub(crate) fn make_all<L: Analysis>(
    bench: &mut Bench<L>,
    place: Place,
    tree: &TreeOp,
) -> Result<(), Refusal>
    requires sound { IsSoundIn bench.old.transaction.ctx tree.now }
    requires numbered { IsNumberedFrom bench.old.transaction.store.module_of.next tree.now }
    requires free { insert_fault place tree.now bench.old.transaction.store.module_of.next bench.old.transaction.store.module_of.tree
        ≡ None }
    ensures onward { Onward L.meaning bench.old bench.new }
    ensures ok { OnOk result
        (bench.new.transaction.store.module_of
        ≡ edited_by (tests_in bench.old.transaction.ctx) (Insert place tree.now) bench.old.transaction.store.module_of) }
    ensures answered { IsAnswered (Unit {0})
        (reason_by (tests_in bench.old.transaction.ctx) (Insert place tree.now) bench.old.transaction.store.module_of) result }
{
    headers_are_bare();
    inserts_are_tried::<u32, u32, u32>();
    led_benches_are_kept::<L>();
    bench.is_wellformed();
    let headers = match headers_of(bench.alloc(), place, tree) {
        Ok(headers) => headers,
        Err(_) => return Err(Refusal::Memory),
    };
    match make_each(bench, &headers) {
        Ok(()) => {
            bench.is_wellformed();
            Ok(())
        }
        Err(refusal) => Err(refused_whole(refusal)),
    }
}
