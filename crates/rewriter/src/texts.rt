//! Parses attributes and operations in the context of a rewriter's module.
ghost use Rattle.std.specs.Prelude.{◌≡◌, ℕ, IfErr, IfOk, Err};
ghost use Rattle.ir_event.specs.types.Things.{IsAttr};
ghost use Rattle.ir_event.specs.types.Terms.{attr_term};
ghost use Rattle.ir_event.specs.trees.Ids.{IsNumberedFrom};
ghost use Rattle.ir_event.specs.trees.Meaning.{IsSoundIn, meaning};
ghost use Rattle.ir_event.specs.types.declared.refusal.Refusal.{Refusal as Reason};
ghost use Rattle.rewriter.specs.Public.{IsFull, IsOpRefusal, IsTextRefusal};
ghost use Rattle.rewriter.specs.Public.{IsNoAttr};
ghost use Rattle.rewriter.specs.Public.{SpellsAttr};
ghost use Rattle.rewriter.specs.Public.{IsNone};
ghost use Rattle.rewriter.specs.Texts.{SpellsNextTo};
ghost use Rattle.rewriter.specs.Held.{module_held};
ghost use Rattle.rewriter.specs.Moves.{Grown};
ghost use Rattle.rewriter.specs.RewriterCalls.{Led};

use crate::ReadError;
use crate::bench::Bench;
use ir_event::analysis::Analysis;
use ir_event::trees::tree::TreeOp;
use ir_event::types::ids::AttrId;

impl<L: Analysis> Bench<L> {
    /// Parses an attribute and interns it.
    ///
    /// Refusals: those of the reader.
    pub fn parse_attr(&mut self, text: &[u8]) -> Result<AttrId, ReadError>
        ensures attr { IfOk result
            (λ a. IsAttr self.new.transaction.ctx a × SpellsAttr self.old.transaction.ctx.opaque text.now (attr_term self.new.transaction.ctx a)) }
        ensures refused { (r : Reason) (o : ℕ) → result ≡ Err (ReadError.Refused r o) → IsNoAttr (SpellsAttr self.old.transaction.ctx.opaque text.now) }
        ensures reported { IfErr result (λ e. IsTextRefusal text.now e) }
        ensures full { (o : ℕ) → result ≡ Err (ReadError.Full o) → IsFull self.new.transaction.ctx }
        ensures grown { Grown self.old.transaction self.new.transaction }
        ensures listeners { self.new.listeners ≡ self.old.listeners }
        ensures led { Led L.meaning self.old self.new }
    {
        self.transaction.world().ctx.sound();
        let read = self.transaction.parse_attr(self.alloc, text);
        self.transaction.world().ctx.sound();
        read
    }

    /// Parses an operation, which may use the values of the module. Its ids are the next free ones.
    ///
    /// Refusals: those of the reader.
    pub fn read_op(&mut self, text: &[u8]) -> Result<TreeOp, ReadError>
        ensures read { IfOk result
            (λ t. SpellsNextTo self.old.transaction.ctx.opaque (module_held self.old.transaction) text.now (meaning self.new.transaction.ctx t)) }
        ensures sound { IfOk result (λ t. IsSoundIn self.new.transaction.ctx t) }
        ensures numbered { IfOk result (λ t. IsNumberedFrom self.old.transaction.store.module_of.next t) }
        ensures refused { (r : Reason) (o : ℕ) → result ≡ Err (ReadError.Refused r o)
            → IsNone (SpellsNextTo self.old.transaction.ctx.opaque (module_held self.old.transaction) text.now) }
        ensures reported { IfErr result (λ e. IsOpRefusal text.now e) }
        ensures full { (o : ℕ) → result ≡ Err (ReadError.Full o) → IsFull self.new.transaction.ctx }
        ensures grown { Grown self.old.transaction self.new.transaction }
        ensures listeners { self.new.listeners ≡ self.old.listeners }
        ensures led { Led L.meaning self.old self.new }
    {
        self.transaction.world().ctx.sound();
        let read = self.transaction.read_op(self.alloc, text);
        self.transaction.world().ctx.sound();
        read
    }
}
