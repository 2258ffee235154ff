//! Inserts an operation with everything inside it.
ghost use Rattle.std.specs.Prelude.{◌≡◌};
ghost use Rattle.ir_event.specs.trees.Ids.{IsNumberedFrom};
ghost use Rattle.ir_event.specs.trees.Meaning.{IsSoundIn};
ghost use Rattle.rewriter.specs.Contents.{edit_meaning};
ghost use Rattle.rewriter.specs.Edits.{Insert};
ghost use Rattle.rewriter.specs.Machine.{Do};
ghost use Rattle.rewriter.specs.RewriterCalls.{Does, JournalAfter, Led, id_reply_of};

use crate::bench::Bench;
use crate::fault::insert_fault;
use crate::finish::close_mark;
use crate::laws::led_benches_are_kept;
use crate::making::make_all;
use ir_event::analysis::Analysis;
use ir_event::trees::place::Place;
use ir_event::trees::tree::TreeOp;
use ir_event::types::ids::OpId;
use ir_event::types::refusal::Refusal;
use rewriter_machine::step_laws::inserts_are_tried;

impl<L: Analysis> Bench<L> {
    /// Inserts an operation, with everything inside it, at `place` and returns its id. The ids are the next free ones,
    /// in pre-order. A refused call leaves the module unchanged.
    ///
    /// Refusals, in order: `NoSuchOp` if the parent of `place` isn't in the module; `NoSuchIndex` if the parent has no
    /// such place; `Full`; `IdsExhausted`; `TooDeepHere`; `NotVisible` if an operand would not be visible (Language
    /// Reference, "Regions", on value scoping); and `Memory`.
    pub fn insert(&mut self, place: Place, tree: &TreeOp) -> Result<OpId, Refusal>
        requires sound { IsSoundIn self.old.transaction.ctx tree.now }
        requires numbered { IsNumberedFrom self.old.transaction.store.module_of.next tree.now }
        ensures does { Does L.meaning (Do (edit_meaning self.old.transaction.ctx (Insert place tree.now)))
            (id_reply_of result) self.old self.new }
        ensures led { Led L.meaning self.old self.new }
        ensures ctx { self.new.transaction.ctx ≡ self.old.transaction.ctx }
        ensures journal { JournalAfter L.meaning result self.old self.new }
    {
        inserts_are_tried::<u32, u32, u32>();
        led_benches_are_kept::<L>();
        self.is_wellformed();
        if let Some(refusal) = insert_fault(self.world(), &place, tree) {
            return Err(refusal);
        }
        if let Err(refusal) = self.step() {
            return Err(refusal);
        }
        match make_all(self, place, tree) {
            Ok(()) => {
                close_mark(self, true);
                Ok(tree.id)
            }
            Err(refusal) => {
                close_mark(self, false);
                Err(refusal)
            }
        }
    }
}
