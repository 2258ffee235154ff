//! The numbers of names, types and attributes by their texts. Those that are new are interned.
ghost use Rattle.std.specs.Prelude.{◌≡◌, ℕ, Err, IfErr, IfOk, IfSome, OnErr};
ghost use Rattle.ir_event.specs.types.Interning.{with_name};
ghost use Rattle.ir_event.specs.types.Terms.{TypeOf, attr_term, type_term};
ghost use Rattle.ir_event.specs.types.Things.{IsAttr, IsType};
ghost use Rattle.ir_event.specs.types.declared.refusal.Refusal.{Refusal as Reason};
ghost use Rattle.rewriter.specs.Public.{IsNoAttr, IsTextRefusal, SpellsAttr};
ghost use Rattle.rewriter.specs.RewriterCalls.{AgreesOrStale};
ghost use Rattle.mlir_work_c_read.specs.Interned.{Grown};

use ir_event::analysis::Analysis;
use ir_event::types::context::Context;
use ir_event::types::ids::{AttrId, NameId, TypeId};
use ir_event::types::node::AttrNode;
use ir_event::types::refusal::Refusal;
use ir_event::types::things::attr_of;
use rewriter::laws::led_benches_are_kept;
use rewriter::{Bench, ReadError};

/// Returns the number of a name.
///
/// Refusals: those of the context.
pub fn intern_name<L: Analysis>(bench: &mut Bench<L>, text: &[u8]) -> Result<NameId, Refusal>
    requires { AgreesOrStale L.meaning bench.old }
    ensures name { IfOk result (λ n. (n, bench.new.transaction.ctx) ≡ with_name text.now bench.old.transaction.ctx) }
    ensures err { OnErr result (bench.new ≡ bench.old) }
    ensures grown { Grown L.meaning bench.old bench.new }
    ensures kept { AgreesOrStale L.meaning bench.new }
{
    led_benches_are_kept::<L>();
    bench.world().ctx.sound();
    let named = bench.name(text);
    bench.world().ctx.sound();
    named
}

/// Returns the number of an attribute.
///
/// Errors: those of the reader.
pub fn intern_attribute<L: Analysis>(bench: &mut Bench<L>, text: &[u8]) -> Result<AttrId, ReadError>
    requires { AgreesOrStale L.meaning bench.old }
    ensures attr { IfOk result (λ a. IsAttr bench.new.transaction.ctx a × SpellsAttr bench.old.transaction.ctx.opaque text.now (attr_term bench.new.transaction.ctx a)) }
    ensures refused { (r : Reason) (o : ℕ) → result ≡ Err (ReadError.Refused r o) → IsNoAttr (SpellsAttr bench.old.transaction.ctx.opaque text.now) }
    ensures reported { IfErr result (λ e. IsTextRefusal text.now e) }
    ensures grown { Grown L.meaning bench.old bench.new }
    ensures kept { AgreesOrStale L.meaning bench.new }
{
    led_benches_are_kept::<L>();
    bench.world().ctx.sound();
    let read = bench.parse_attr(text);
    bench.world().ctx.sound();
    read
}

/// Returns the number of a type.
///
/// Errors: those of the reader, and `Unexpected` at the first byte if the text is another attribute.
pub fn intern_type<L: Analysis>(bench: &mut Bench<L>, text: &[u8]) -> Result<TypeId, ReadError>
    requires { AgreesOrStale L.meaning bench.old }
    ensures ty { IfOk result (λ t. IsType bench.new.transaction.ctx t × SpellsAttr bench.old.transaction.ctx.opaque text.now (TypeOf (type_term bench.new.transaction.ctx t))) }
    ensures reported { IfErr result (λ e. IsTextRefusal text.now e) }
    ensures grown { Grown L.meaning bench.old bench.new }
    ensures kept { AgreesOrStale L.meaning bench.new }
{
    let attr = match intern_attribute(bench, text) {
        Ok(attr) => attr,
        Err(e) => return Err(e),
    };
    match type_of_attribute(&bench.world().ctx, attr) {
        Some(ty) => Ok(ty),
        None => Err(ReadError::Refused {
            refusal: Refusal::Unexpected,
            offset: 0,
        }),
    }
}

/// Returns the type that an attribute is, or `None` if it is another attribute.
fn type_of_attribute(ctx: &Context, attr: AttrId) -> Option<TypeId>
    requires { IsAttr ctx.now attr }
    ensures { IfSome result (λ t. IsType ctx.now t × (attr_term ctx.now attr ≡ TypeOf (type_term ctx.now t))) }
{
    match attr_of(ctx, attr) {
        AttrNode::Ty(ty) => Some(*ty),
        _ => None,
    }
}
