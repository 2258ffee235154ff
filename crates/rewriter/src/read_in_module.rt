//! Parses attributes and operations in the context of an IR state's module.
ghost use Rattle.std.specs.Prelude.{◌≡◌, ℕ, IfErr, IfOk, Err};
ghost use Rattle.ir_event.specs.types.Things.{IsAttr};
ghost use Rattle.ir_event.specs.types.Terms.{attr_term};
ghost use Rattle.ir_event.specs.trees.Ids.{IsNumberedFrom};
ghost use Rattle.ir_event.specs.trees.Meaning.{IsSoundIn, meaning};
ghost use Rattle.ir_event.specs.Modules.{module_in};
ghost use Rattle.ir_event.specs.types.declared.refusal.Refusal.{Refusal as Reason};
ghost use Rattle.ir_text.specs.Public.{IsFull, IsOpRefusal, IsTextRefusal};
ghost use Rattle.ir_text.specs.Public.{IsNoAttr};
ghost use Rattle.ir_text.specs.Public.{SpellsAttr};
ghost use Rattle.ir_text.specs.Public.{IsNone};
ghost use Rattle.rewriter.specs.Texts.{Grown, SpellsNextTo};

use ir_event::trees::tree::TreeOp;
use ir_event::types::ids::AttrId;
use ir_event::world::World;
use ir_text::reader::{self, ReadError};
use std::alloc::Global;

/// Parses an attribute and interns it in the context of `world`. The module is unchanged.
///
/// Refusals: those of the reader.
pub fn parse_attr(alloc: Global, world: &mut World, text: &[u8]) -> Result<AttrId, ReadError>
    ensures attr { IfOk result (λ a. IsAttr world.new.ctx a × SpellsAttr world.old.ctx.opaque text.now (attr_term world.new.ctx a)) }
    ensures refused { (r : Reason) (o : ℕ) → result ≡ Err (ReadError.Refused r o) → IsNoAttr (SpellsAttr world.old.ctx.opaque text.now) }
    ensures reported { IfErr result (λ e. IsTextRefusal text.now e) }
    ensures full { (o : ℕ) → result ≡ Err (ReadError.Full o) → IsFull world.new.ctx }
    ensures grown { Grown world.old world.new }
{
    world.ctx.sound();
    let read = reader::parse_attr(alloc, &mut world.ctx, text);
    world.ctx.sound();
    read
}

/// Parses an operation, which may use the values of the module of `world`. Its ids are the next free ones. Names, types
/// and attributes of the text are interned; the module is unchanged.
///
/// Refusals: those of the reader.
pub fn read_op(alloc: Global, world: &mut World, text: &[u8]) -> Result<TreeOp, ReadError>
    ensures read { IfOk result (λ t. SpellsNextTo world.old.ctx.opaque (module_in world.old) text.now (meaning world.new.ctx t)) }
    ensures sound { IfOk result (λ t. IsSoundIn world.new.ctx t) }
    ensures numbered { IfOk result (λ t. IsNumberedFrom world.old.store.module_of.next t) }
    ensures refused { (r : Reason) (o : ℕ) → result ≡ Err (ReadError.Refused r o)
        → IsNone (SpellsNextTo world.old.ctx.opaque (module_in world.old) text.now) }
    ensures reported { IfErr result (λ e. IsOpRefusal text.now e) }
    ensures full { (o : ℕ) → result ≡ Err (ReadError.Full o) → IsFull world.new.ctx }
    ensures grown { Grown world.old world.new }
{
    world.ctx.sound();
    let read = reader::read_op(alloc, &mut world.ctx, text, &world.store);
    world.ctx.sound();
    read
}
