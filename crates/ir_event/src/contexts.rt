//! Interning in the context of an IR state. The module doesn't change.
ghost use Rattle.std.specs.Prelude.{◌≡◌, true, None, IfOk, IsOk, OnErr};
ghost use Rattle.op_registry.specs.types.Things.{IsExtendedBy, TypeIsOf, AttrIsOf};
ghost use Rattle.op_registry.specs.types.Interning.{with_name, with_type, with_attr, knows_name, knows_type, knows_attr};
ghost use Rattle.op_registry.specs.types.Reasons.{IsRefusedFor, name_reason, type_reason, attr_reason};
ghost use Rattle.ir_event.specs.Modules.{module_in, node_of_op};

use crate::world::World;
use op_registry::types::ids::{AttrId, NameId, TypeId};
use op_registry::types::node::{AttrNode, TypeNode};
use op_registry::types::refusal::Refusal;

impl World {
    /// Interns a name and returns its id in the context.
    ///
    /// Refusals: those of the context.
    pub fn name(&mut self, bytes: &[u8]) -> Result<NameId, Refusal>
        ensures ok { IfOk result (λ id. (id, self.new.ctx) ≡ with_name bytes.now self.old.ctx) }
        ensures grows { IsExtendedBy self.old.ctx self.new.ctx }
        ensures refused { IsRefusedFor (name_reason bytes.now self.old.ctx) result }
        ensures known { knows_name bytes.now self.old.ctx ≡ true → IsOk result }
        ensures err { OnErr result (self.new.ctx ≡ self.old.ctx) }
        ensures store { self.new.store ≡ self.old.store }
        ensures module { module_in self.new ≡ module_in self.old }
    {
        self.ctx.sound();
        self.ctx.name(bytes)
    }

    /// Interns a type, whose components are types of the context, and returns its id.
    ///
    /// Refusals: those of the context.
    pub fn ty(&mut self, node: TypeNode) -> Result<TypeId, Refusal>
        requires { TypeIsOf self.old.ctx node }
        ensures ok { IfOk result (λ id. (id, self.new.ctx) ≡ with_type node self.old.ctx) }
        ensures grows { IsExtendedBy self.old.ctx self.new.ctx }
        ensures refused { IsRefusedFor (type_reason node self.old.ctx) result }
        ensures known { knows_type node self.old.ctx ≡ true → type_reason node self.old.ctx ≡ None → IsOk result }
        ensures err { OnErr result (self.new.ctx ≡ self.old.ctx) }
        ensures store { self.new.store ≡ self.old.store }
        ensures module { module_in self.new ≡ module_in self.old }
    {
        self.ctx.sound();
        self.ctx.ty(node)
    }

    /// Interns an attribute, whose components are names, types and attributes of the context, and returns its id.
    ///
    /// Refusals: those of the context.
    pub fn attr(&mut self, node: AttrNode) -> Result<AttrId, Refusal>
        requires { AttrIsOf self.old.ctx node }
        ensures ok { IfOk result (λ id. (id, self.new.ctx) ≡ with_attr node self.old.ctx) }
        ensures grows { IsExtendedBy self.old.ctx self.new.ctx }
        ensures refused { IsRefusedFor (attr_reason node self.old.ctx) result }
        ensures known { knows_attr node self.old.ctx ≡ true → attr_reason node self.old.ctx ≡ None → IsOk result }
        ensures err { OnErr result (self.new.ctx ≡ self.old.ctx) }
        ensures store { self.new.store ≡ self.old.store }
        ensures module { module_in self.new ≡ module_in self.old }
    {
        self.ctx.sound();
        self.ctx.attr(node)
    }
}
