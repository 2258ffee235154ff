//! Parses attributes and operations in the context of a transaction's module.
ghost use Rattle.std.specs.Prelude.{◌≡◌, ℕ, IfErr, IfOk, Err};
ghost use Rattle.ir_event.specs.types.Things.{IsAttr};
ghost use Rattle.ir_event.specs.types.Terms.{attr_term};
ghost use Rattle.ir_event.specs.trees.Ids.{IsNumberedFrom};
ghost use Rattle.ir_event.specs.trees.Meaning.{IsSoundIn, meaning};
ghost use Rattle.ir_event.specs.types.declared.refusal.Refusal.{Refusal as Reason};
ghost use Rattle.ir_text.specs.Public.{IsFull, IsOpRefusal, IsTextRefusal};
ghost use Rattle.ir_text.specs.Public.{IsNoAttr};
ghost use Rattle.ir_text.specs.Public.{SpellsAttr};
ghost use Rattle.ir_text.specs.Public.{IsNone};
ghost use Rattle.rewriter.specs.Texts.{SpellsNextTo};
ghost use Rattle.rewriter.specs.Held.{module_held};
ghost use Rattle.rewriter.specs.Moves.{Grown};

use crate::read_in_module;
use crate::transaction::Transaction;
use ir_event::trees::tree::TreeOp;
use ir_event::types::ids::AttrId;
use ir_text::reader::ReadError;
use std::alloc::Global;

impl Transaction {
    /// Parses an attribute and interns it.
    ///
    /// Refusals: those of the reader.
    pub fn parse_attr(&mut self, alloc: Global, text: &[u8]) -> Result<AttrId, ReadError>
        ensures attr { IfOk result (λ a. IsAttr self.new.ctx a × SpellsAttr self.old.ctx.opaque text.now (attr_term self.new.ctx a)) }
        ensures refused { (r : Reason) (o : ℕ) → result ≡ Err (ReadError.Refused r o) → IsNoAttr (SpellsAttr self.old.ctx.opaque text.now) }
        ensures reported { IfErr result (λ e. IsTextRefusal text.now e) }
        ensures full { (o : ℕ) → result ≡ Err (ReadError.Full o) → IsFull self.new.ctx }
        ensures grown { Grown self.old self.new }
    {
        self.world.ctx.sound();
        let read = read_in_module::parse_attr(alloc, &mut self.world, text);
        self.world.ctx.sound();
        read
    }

    /// Parses an operation, which may use the values of the module. Its ids are the next free ones.
    ///
    /// Refusals: those of the reader.
    pub fn read_op(&mut self, alloc: Global, text: &[u8]) -> Result<TreeOp, ReadError>
        ensures read { IfOk result (λ t. SpellsNextTo self.old.ctx.opaque (module_held self.old) text.now (meaning self.new.ctx t)) }
        ensures sound { IfOk result (λ t. IsSoundIn self.new.ctx t) }
        ensures numbered { IfOk result (λ t. IsNumberedFrom self.old.store.module_of.next t) }
        ensures refused { (r : Reason) (o : ℕ) → result ≡ Err (ReadError.Refused r o)
            → IsNone (SpellsNextTo self.old.ctx.opaque (module_held self.old) text.now) }
        ensures reported { IfErr result (λ e. IsOpRefusal text.now e) }
        ensures full { (o : ℕ) → result ≡ Err (ReadError.Full o) → IsFull self.new.ctx }
        ensures grown { Grown self.old self.new }
    {
        self.world.ctx.sound();
        let read = read_in_module::read_op(alloc, &mut self.world, text);
        self.world.ctx.sound();
        read
    }
}
