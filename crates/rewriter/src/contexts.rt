//! Interning in the context of a transaction. The module and the modules of the marks don't change.
ghost use Rattle.std.specs.Prelude.{◌≡◌, true, None, IfOk, IsOk, OnErr};
ghost use Rattle.ir_event.specs.types.Things.{IsExtendedBy, TypeIsOf, AttrIsOf};
ghost use Rattle.ir_event.specs.types.Interning.{with_name, with_type, with_attr, knows_name, knows_type, knows_attr};
ghost use Rattle.ir_event.specs.types.Reasons.{IsRefusedFor, name_reason, type_reason, attr_reason};
ghost use Rattle.rewriter.specs.Moves.{Grown};

use crate::transaction::Transaction;
use ir_event::types::ids::{AttrId, NameId, TypeId};
use ir_event::types::node::{AttrNode, TypeNode};
use ir_event::types::refusal::Refusal;

impl Transaction {
    /// Interns a name and returns its id in the context.
    ///
    /// Refusals: those of the context.
    pub fn name(&mut self, bytes: &[u8]) -> Result<NameId, Refusal>
        ensures ok { IfOk result (λ id. (id, self.new.ctx) ≡ with_name bytes.now self.old.ctx) }
        ensures grows { Grown self.old self.new }
        ensures refused { IsRefusedFor (name_reason bytes.now self.old.ctx) result }
        ensures known { knows_name bytes.now self.old.ctx ≡ true → IsOk result }
        ensures err { OnErr result (self.new ≡ self.old) }
    {
        self.world.ctx.sound();
        let id = self.world.name(bytes);
        self.world.ctx.sound();
        id
    }

    /// Interns a type, whose components are types of the context, and returns its id.
    ///
    /// Refusals: those of the context.
    pub fn ty(&mut self, node: TypeNode) -> Result<TypeId, Refusal>
        requires { TypeIsOf self.old.ctx node }
        ensures ok { IfOk result (λ id. (id, self.new.ctx) ≡ with_type node self.old.ctx) }
        ensures grows { Grown self.old self.new }
        ensures refused { IsRefusedFor (type_reason node self.old.ctx) result }
        ensures known { knows_type node self.old.ctx ≡ true → type_reason node self.old.ctx ≡ None → IsOk result }
        ensures err { OnErr result (self.new ≡ self.old) }
    {
        self.world.ctx.sound();
        let id = self.world.ty(node);
        self.world.ctx.sound();
        id
    }

    /// Interns an attribute, whose components are names, types and attributes of the context, and returns its id.
    ///
    /// Refusals: those of the context.
    pub fn attr(&mut self, node: AttrNode) -> Result<AttrId, Refusal>
        requires { AttrIsOf self.old.ctx node }
        ensures ok { IfOk result (λ id. (id, self.new.ctx) ≡ with_attr node self.old.ctx) }
        ensures grows { Grown self.old self.new }
        ensures refused { IsRefusedFor (attr_reason node self.old.ctx) result }
        ensures known { knows_attr node self.old.ctx ≡ true → attr_reason node self.old.ctx ≡ None → IsOk result }
        ensures err { OnErr result (self.new ≡ self.old) }
    {
        self.world.ctx.sound();
        let id = self.world.attr(node);
        self.world.ctx.sound();
        id
    }
}
